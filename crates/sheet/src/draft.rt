//! What is read of a sheet in form, before its sizes are judged.
ghost use Rattle.std.specs.Prelude.{◌≡◌, ◌^◌, ◌<◌, ◌≤◌};
ghost use Rattle.fault.specs.declared.text.TextFault.TheVariants.{Size};
ghost use Rattle.sheet.specs.Text.{forms};
ghost use Rattle.sheet.specs.Scan.{start};
ghost use Rattle.sheet.specs.Walk.{reads, Finished, Read, Sized, Roomed};

use crate::contents::FIRST_LINE;
use crate::reader::Reader;
use crate::rows::{Instance, Operation, PartRow, TypeRow};
use crate::tables::{INSTANCES, OPERATIONS, PARTS, Rows, TYPES, Tables};
use fault::{At, TextFault};

// A table's rows as far as there is room, and how many there are, which may be more. An array and a count, since nothing is allocated.
#[derive(Drop)]
pub(crate) struct Draft<R, const N: usize> {
    pub(crate) rows: [R; N],
    pub(crate) count: usize,
}

// `Tables` is not generic over drafts and rows: every type that holds tables would then name a parameter.
#[derive(Drop)]
pub(crate) struct Drafts {
    pub(crate) operations: Draft<Operation, OPERATIONS>,
    pub(crate) instances: Draft<Instance, INSTANCES>,
    pub(crate) types: Draft<TypeRow, TYPES>,
    pub(crate) parts: Draft<PartRow, PARTS>,
}

impl Reader<'_> {
    // Nothing may follow.
    fn finish(&self) -> Result<(), At<TextFault>>
        ensures { Finished self.now result }
    {
        if !self.rest.is_empty() {
            return Err(self.wrong());
        }
        Ok(())
    }

    // Takes the whole sheet.
    pub(crate) fn sheet(&mut self) -> Result<Drafts, At<TextFault>>
        ensures { Read result (reads (start forms) self.old) }
    {
        let operations = self.table::<Operation, 4, OPERATIONS>(b"effect op takes gives\n")?;
        let instances = self.table::<Instance, 2, INSTANCES>(b"instance effect\n")?;
        let types = self.table::<TypeRow, 6, TYPES>(b"type kind a b d e\n")?;
        let parts = self.table::<PartRow, 6, PARTS>(b"part kind a b type dirt\n")?;
        self.finish()?;
        Ok(Drafts {
            operations,
            instances,
            types,
            parts,
        })
    }
}

// Refusal 2 at this line.
fn size(line: u64) -> At<TextFault>
    ensures { result ≡ record { line = line; fault = Size } }
{
    At {
        line,
        fault: TextFault::Size,
    }
}

impl<R: Drop, const N: usize> Draft<R, N> {
    // The table, where it has room for its rows; its first row stands at the line `first`.
    fn sized(self, first: u64) -> Result<Rows<R, N>, At<TextFault>>
        requires room { N < 2 ^ 32 }
        requires line { first < 2 ^ 32 }
        ensures { Roomed self first result }
    {
        let Draft { rows, count } = self;
        if count > N {
            return Err(size(first + N as u64));
        }
        Ok(Rows { rows, count })
    }
}

impl Drafts {
    // The tables, where each has room for its rows and there is a part.
    pub(crate) fn sized(self) -> Result<Tables, At<TextFault>>
        ensures { Sized self result }
    {
        let Drafts {
            operations,
            instances,
            types,
            parts,
        } = self;
        let operations = operations.sized(FIRST_LINE)?;
        let line = operations.next_line(FIRST_LINE);
        let instances = instances.sized(line)?;
        let line = instances.next_line(line);
        let types = types.sized(line)?;
        let line = types.next_line(line);
        let parts = parts.sized(line)?;
        if parts.count == 0 {
            return Err(size(line));
        }
        Ok(Tables {
            operations,
            instances,
            types,
            parts,
        })
    }
}
