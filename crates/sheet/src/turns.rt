//! Whether the rows of a sheet's tables are numbered in turn.
ghost use Rattle.std.specs.Prelude.{◌≡◌, ◌+◌, ◌^◌, ◌<◌, ◌≤◌, true, length};
ghost use Rattle.sheet.specs.Answer.{numbered, follows, orderly, turned, listing};

use crate::contents::FIRST_LINE;
use crate::rows::{FIRST_TYPE, Numbered, Operation};
use crate::tables::{Table, Tables};
use fault::{At, TextFault};

// Rows numbered from `first`, the first of them at `line`. A loop: what `position` finds would have to be made a fault all the same. The crate `table`,
// above, has this as `search` over a closure: one function for both would be public, and so without the condition that a closure's call needs.
fn numbered<R: Numbered>(rows: &[R], first: u64, line: u64) -> Result<(), At<TextFault>>
    requires numbers { first + length rows.now < 2 ^ 63 }
    requires lines { line + length rows.now < 2 ^ 63 }
    ensures { result ≡ numbered R.Numbered.number_of line first rows.now }
{
    for (i, row) in rows.iter().enumerate() {
        if row.number() != first + i as u64 {
            return Err(At {
                line: line + i as u64,
                fault: TextFault::Turn,
            });
        }
    }
    Ok(())
}

// Whether this operation may come where `op` of `effect` is the next.
fn follows(effect: u64, op: u64, row: &Operation) -> bool
    requires { effect < 2 ^ 63 }
    ensures value { result ≡ follows effect op row.now }
    ensures bound { result ≡ true → (row.now.effect ≤ effect + 1) × (row.now.op ≤ op) }
{
    (row.effect == effect && row.op == op) || (op > 0 && row.effect == effect + 1 && row.op == 0)
}

// Operations that run through each effect from 0, and effects from 0. A loop, since what may come next depends on the row before: a closure
// for `position` would change both numbers as it goes, and be no plainer.
fn orderly(rows: &[Operation]) -> Result<(), At<TextFault>>
    requires { length rows.now < 2 ^ 32 }
    ensures { result ≡ orderly 2 0 0 rows.now }
{
    let mut effect = 0;
    let mut op = 0;
    for (i, row) in rows.iter().enumerate() {
        if !follows(effect, op, row) {
            return Err(At {
                line: FIRST_LINE + i as u64,
                fault: TextFault::Turn,
            });
        }
        effect = row.effect;
        op = row.op + 1;
    }
    Ok(())
}

impl Tables {
    // Whether each row is the next of its table.
    pub(crate) fn turned(&self) -> Result<(), At<TextFault>>
        ensures { result ≡ turned (listing self.now) }
    {
        orderly(self.operations.listed())?;
        numbered(
            self.instances.listed(),
            0,
            self.first_line(Table::Instances),
        )?;
        numbered(
            self.types.listed(),
            FIRST_TYPE,
            self.first_line(Table::Types),
        )?;
        numbered(self.parts.listed(), 0, self.first_line(Table::Parts))
    }
}
