//! Where the terms that begin at parts end.
ghost use Rattle.std.specs.Prelude.{◌≡◌, ◌≤◌};

use crate::checker::Checker;

impl Checker<'_> {
    ghost use Rattle.claim.specs.Checker.{rows};
    ghost use Rattle.claim.specs.Placing.{end_of};

    // The number of the part after the term that begins at the part `at`.
    pub(crate) fn end(&self, at: usize) -> usize
        ensures value { result ≡ end_of (rows self.now) at }
        ensures onward { at ≤ result }
    {
        // By positions, since one is the answer. Crate `step` has this walk over parts, where these are rows of numbers: one trait for both would have
        // no place for its `impl` for rows: `eff` knows no rows, and `sheet` no kinds.
        let mut wanted = 1;
        for next in at..self.size() {
            if wanted == 0 {
                return next;
            }
            wanted = wanted - 1 + self.kind(next).children().len();
        }
        at.max(self.size())
    }
}
