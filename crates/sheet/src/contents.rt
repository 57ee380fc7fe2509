//! The rows of tables, tables without rows, and the lines that rows stand in.
ghost use Rattle.std.specs.Prelude.{◌≡◌, ◌+◌, ◌^◌, ◌<◌, ◌≤◌, [], length};
ghost use Rattle.sheet.specs.Answer.{array, stored, contents, holding, listing, rows_of};
ghost use Rattle.sheet.specs.Rows.{no_rows, type_row};
ghost use Rattle.sheet.specs.Faults.{count, row_line, which};

use crate::rows::{FIRST_TYPE, Instance, Operation, PartRow, TypeRow};
use crate::tables::{Rows, Table, Tables};

impl<R: Copy, const N: usize> Rows<R, N> {
    // No row, and `zero` throughout the room. It is a parameter, since a bound `R: Default` says that there is a default, and not that it is zeros.
    fn none(zero: R) -> Rows<R, N>
        ensures { array result ≡ stored N zero [] }
    {
        Rows {
            rows: [zero; N],
            count: 0,
        }
    }
}

impl<R, const N: usize> Rows<R, N> {
    /// The rows of the table.
    pub fn listed(&self) -> &[R]
        ensures value { result.now ≡ rows_of self.now }
        ensures len { length result.now ≡ self.now.count }
    {
        &self.rows[..self.count]
    }

    /// How many rows the table has.
    pub fn len(&self) -> usize
        ensures value { result ≡ length (rows_of self.now) }
        ensures room { result ≤ N }
    {
        self.listed().len()
    }

    // The line of the next table's first row, this table's being `first`: an empty line and a line of names lie between.
    pub(crate) fn next_line(&self, first: u64) -> u64
        requires room { N < 2 ^ 32 }
        requires line { first < 2 ^ 32 }
        ensures { result ≡ first + self.now.count + 2 }
    {
        first + self.count as u64 + 2
    }
}

// The line of the first table's first row: a line of names comes before it.
pub(crate) const FIRST_LINE: u64 = 2;

impl Tables {
    /// Tables that list no row and hold zeros throughout.
    pub fn empty() -> Tables
        ensures { contents result ≡ holding no_rows }
    {
        Tables {
            operations: Rows::none(Operation::default()),
            instances: Rows::none(Instance::default()),
            types: Rows::none(TypeRow::default()),
            parts: Rows::none(PartRow::default()),
        }
    }

    /// The row of a type's number; a ground type has none, nor has a number past the list.
    pub fn type_row(&self, number: u64) -> Option<TypeRow>
        ensures { result ≡ type_row (rows_of self.now.types) number }
    {
        let at = number.checked_sub(FIRST_TYPE)?;
        self.types.listed().get(at as usize).copied()
    }

    /// The line of a table's first row.
    pub fn first_line(&self, table: Table) -> u64
        ensures { result ≡ row_line (count (listing self.now)) (which table) 0 }
    {
        let instances = self.operations.next_line(FIRST_LINE);
        let types = self.instances.next_line(instances);
        let parts = self.types.next_line(types);
        match table {
            Table::Operations => FIRST_LINE,
            Table::Instances => instances,
            Table::Types => types,
            Table::Parts => parts,
        }
    }
}
