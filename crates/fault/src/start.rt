//! Faults of a start.
ghost use Rattle.std.specs.Prelude.{◌≡◌};
ghost use Rattle.fault.specs.Numbers.{start_number, start_layer};

use crate::fault::Fault;
use crate::layer::Layer;

/// Why a run is not started.
#[derive(Clone, Copy, Debug, PartialEq, Eq)]
pub enum StartFault {
    /// The recipe's place is empty, or a slab is too short or too long.
    Unready,
}

impl Fault for StartFault {
    ghost number_of = { start_number };

    ghost layer_of = { start_layer };

    fn number(self) -> u8 {
        match self {
            StartFault::Unready => 9,
        }
    }

    fn layer(self) -> Layer {
        match self {
            StartFault::Unready => Layer::Start,
        }
    }
}
