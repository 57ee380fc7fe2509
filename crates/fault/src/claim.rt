//! Faults of a sheet's claims, or of a layer below.
ghost use Rattle.std.specs.Prelude.{◌≡◌};
ghost use Rattle.fault.specs.Numbers.{claim_number, claim_layer};
ghost use Rattle.fault.specs.Upward.{in_claim};

use crate::at::At;
use crate::fault::Fault;
use crate::layer::Layer;
use crate::shape::ShapeFault;

/// Why a sheet is not admitted.
#[derive(Clone, Copy, Debug, PartialEq, Eq)]
pub enum ClaimFault {
    Shape(ShapeFault),
    /// A claim does not follow from the children's claims.
    Claim,
}

impl Fault for ClaimFault {
    ghost number_of = { claim_number };

    ghost layer_of = { claim_layer };

    fn number(self) -> u8 {
        match self {
            ClaimFault::Shape(fault) => fault.number(),
            ClaimFault::Claim => 8,
        }
    }

    fn layer(self) -> Layer {
        match self {
            ClaimFault::Shape(fault) => fault.layer(),
            ClaimFault::Claim => Layer::Claim,
        }
    }
}

impl From<At<ShapeFault>> for At<ClaimFault> {
    ghost from_gives = { λ e r. r ≡ in_claim e };

    fn from(e: At<ShapeFault>) -> At<ClaimFault> {
        e.map(ClaimFault::Shape)
    }
}
