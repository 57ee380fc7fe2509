//! Faults of a run: of its sheet, or of its start.
ghost use Rattle.std.specs.Prelude.{◌≡◌};
ghost use Rattle.fault.specs.Numbers.{run_number, run_layer};
ghost use Rattle.fault.specs.Upward.{claim_in_run, start_in_run};

use crate::at::At;
use crate::claim::ClaimFault;
use crate::fault::Fault;
use crate::layer::Layer;
use crate::start::StartFault;

/// Why a sheet is not run: it is not admitted, or its run is not started.
#[derive(Clone, Copy, Debug, PartialEq, Eq)]
pub enum RunFault {
    Claim(ClaimFault),
    Start(StartFault),
}

impl Fault for RunFault {
    ghost number_of = { run_number };

    ghost layer_of = { run_layer };

    fn number(self) -> u8 {
        match self {
            RunFault::Claim(fault) => fault.number(),
            RunFault::Start(fault) => fault.number(),
        }
    }

    fn layer(self) -> Layer {
        match self {
            RunFault::Claim(fault) => fault.layer(),
            RunFault::Start(fault) => fault.layer(),
        }
    }
}

impl From<At<ClaimFault>> for At<RunFault> {
    ghost from_gives = { λ e r. r ≡ claim_in_run e };

    fn from(e: At<ClaimFault>) -> At<RunFault> {
        e.map(RunFault::Claim)
    }
}

impl From<At<StartFault>> for At<RunFault> {
    ghost from_gives = { λ e r. r ≡ start_in_run e };

    fn from(e: At<StartFault>) -> At<RunFault> {
        e.map(RunFault::Start)
    }
}
