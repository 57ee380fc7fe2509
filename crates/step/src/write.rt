//! Writing runs of parts behind what is written.
ghost use Rattle.std.specs.Prelude.{◌≡◌, ◌≤◌, length};

use crate::halt::Halt;
use eff::part::Part;

/// Three runs of parts, to be written one behind the other.
// No slice of slices: what a rule writes has three at most, and a loop over them would be no shorter and need an invariant.
#[derive(Clone, Copy)]
pub(crate) struct Runs<'a> {
    pub(crate) head: &'a [Part],
    pub(crate) first: &'a [Part],
    pub(crate) second: &'a [Part],
}

/// A slab that is written to from its start, and how many of its parts are written.
// No list that grows: a run's memory is fixed, and lent to it.
#[derive(Drop)]
pub(crate) struct Writer<'a> {
    pub(crate) to: &'a mut [Part],
    pub(crate) filled: usize,
    ghost fits: { filled ≤ length to.now },
}

impl<'a> Writer<'a> {
    ghost use Rattle.step.specs.Written.{Holds, Kept, in_order};

    /// Nothing of the slab is written.
    pub(crate) fn new(to: &'a mut [Part]) -> Writer<'a>
        ensures slab { result.to.ghost_name ≡ to.entry.ghost_name }
        ensures parts { result.to.now ≡ to.old }
        ensures filled { result.filled ≡ 0 }
    {
        Writer { to, filled: 0 }
    }

    /// Writes a run of parts.
    // `kept`, that a lent writer is still of the same slab, stands in each contract that lends one: a fact of before and after is no ghost field.
    pub(crate) fn write(&mut self, run: &[Part]) -> Result<(), Halt>
        ensures kept { Kept self.old self.new }
        ensures holds { Holds run.now self.old self.new result }
    {
        // Not by `get_mut`, which was tried: of what it lends of a slice a proof knows nothing once it is given back.
        if run.len() > self.to.len() - self.filled {
            return Err(Halt::Full);
        }
        let start = self.filled;
        let end = start + run.len();
        self.to[start..end].copy_from_slice(run);
        self.filled = end;
        Ok(())
    }

    /// Writes three runs of parts.
    pub(crate) fn write_runs(&mut self, runs: Runs) -> Result<(), Halt>
        ensures kept { Kept self.old self.new }
        ensures holds { Holds (in_order runs.entry) self.old self.new result }
    {
        self.write(runs.head)?;
        self.write(runs.first)?;
        self.write(runs.second)
    }
}
