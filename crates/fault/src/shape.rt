//! Faults of the shape of a sheet's parts, or of a layer below.
ghost use Rattle.std.specs.Prelude.{◌≡◌};
ghost use Rattle.fault.specs.Numbers.{shape_number, shape_layer};
ghost use Rattle.fault.specs.Upward.{in_shape};

use crate::at::At;
use crate::fault::Fault;
use crate::layer::Layer;
use crate::table::TableFault;

/// Why the parts of a sheet are refused as a term.
#[derive(Clone, Copy, Debug, PartialEq, Eq)]
pub enum ShapeFault {
    Table(TableFault),
    /// The parts are not exactly one closed computation.
    Term,
    /// A part stands under too many names.
    Names,
}

impl Fault for ShapeFault {
    ghost number_of = { shape_number };

    ghost layer_of = { shape_layer };

    fn number(self) -> u8 {
        match self {
            ShapeFault::Table(fault) => fault.number(),
            ShapeFault::Term => 6,
            ShapeFault::Names => 7,
        }
    }

    fn layer(self) -> Layer {
        match self {
            ShapeFault::Table(fault) => fault.layer(),
            ShapeFault::Term | ShapeFault::Names => Layer::Shape,
        }
    }
}

impl From<At<TableFault>> for At<ShapeFault> {
    ghost from_gives = { λ e r. r ≡ in_shape e };

    fn from(e: At<TableFault>) -> At<ShapeFault> {
        e.map(ShapeFault::Table)
    }
}
