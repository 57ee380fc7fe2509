//! Faults of a sheet's tables, or of the text below.
ghost use Rattle.std.specs.Prelude.{◌≡◌};
ghost use Rattle.fault.specs.Numbers.{table_number, table_layer};
ghost use Rattle.fault.specs.Upward.{in_table};

use crate::at::At;
use crate::fault::Fault;
use crate::layer::Layer;
use crate::text::TextFault;

/// Why the tables of a sheet are refused.
#[derive(Clone, Copy, Debug, PartialEq, Eq)]
pub enum TableFault {
    Text(TextFault),
    /// A column of the operations, instances or types is out of range.
    Column,
    /// A part's kind or one of its columns is out of range.
    Part,
}

impl Fault for TableFault {
    ghost number_of = { table_number };

    ghost layer_of = { table_layer };

    fn number(self) -> u8 {
        match self {
            TableFault::Text(fault) => fault.number(),
            TableFault::Column => 4,
            TableFault::Part => 5,
        }
    }

    fn layer(self) -> Layer {
        match self {
            TableFault::Text(fault) => fault.layer(),
            TableFault::Column | TableFault::Part => Layer::Table,
        }
    }
}

impl From<At<TextFault>> for At<TableFault> {
    ghost from_gives = { λ e r. r ≡ in_table e };

    fn from(e: At<TextFault>) -> At<TableFault> {
        e.map(TableFault::Text)
    }
}
