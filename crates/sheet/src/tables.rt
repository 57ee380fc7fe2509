//! The four tables of a sheet, each with a fixed room.
ghost use Rattle.std.specs.Prelude.{◌≤◌};

use crate::rows::{Instance, Operation, PartRow, TypeRow};

/// A table: its rows from the first, and how many there are; the rows past them are zero in what is read.
/// Fixed memory: the place of a recipe holds its tables, and nothing is allocated.
#[derive(Drop)]
pub struct Rows<R, const N: usize> {
    pub(crate) rows: [R; N],
    pub(crate) count: usize,
    ghost within: { count ≤ N },
}

/// How many rows the table of operations has room for.
pub const OPERATIONS: usize = 32;

/// How many rows the table of instances has room for.
pub const INSTANCES: usize = 16;

/// How many rows the table of types has room for.
pub const TYPES: usize = 252;

/// How many rows the table of parts has room for.
pub const PARTS: usize = 1024;

/// The four tables, each value as read.
#[derive(Drop)]
pub struct Tables {
    pub operations: Rows<Operation, OPERATIONS>,
    pub instances: Rows<Instance, INSTANCES>,
    pub types: Rows<TypeRow, TYPES>,
    pub parts: Rows<PartRow, PARTS>,
}

/// One of the four tables.
#[derive(Clone, Copy, Debug, PartialEq, Eq)]
pub enum Table {
    Operations,
    Instances,
    Types,
    Parts,
}
