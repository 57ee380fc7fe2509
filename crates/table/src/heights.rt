//! How high types nest.
ghost use Rattle.std.specs.Prelude.{◌≡◌, ℕ, ◌+◌, ◌<◌, ◌≤◌, take, slice_index_or};
ghost use Rattle.sheet.specs.Answer.{rows_of};
ghost use Rattle.table.specs.Heights.{height_above, height_at};

use eff::former::Former;
use sheet::{FIRST_TYPE, Rows, TYPES, TypeRow};

// The heights of the types of the numbers below n; the other entries are 1. An array, since nothing is allocated, with a place
// for each ground type and each row.
#[derive(Drop)]
pub(crate) struct Heights {
    heights: [u16; 256],
    n: usize,
    ghost room: { n ≤ 256 },
    ghost small: { (k : ℕ) → slice_index_or heights k 1 ≤ n },
}

impl Heights {
    // The heights of all numbers: the ground types, then the rows.
    pub(crate) fn of(types: &Rows<TypeRow, TYPES>) -> Heights
        ensures { (k : ℕ) → slice_index_or (take result.n result.heights) k 1 ≡ height_at (rows_of types.now) k }
    {
        let mut heights = Heights {
            heights: [1; 256],
            n: FIRST_TYPE as usize,
        };
        for t in types.listed() {
            heights.push(t);
        }
        heights
    }

    // The height of the type of a number; 1, as unit's, for one that is not below n.
    pub(crate) fn at(&self, number: u64) -> u16
        ensures value { result ≡ slice_index_or (take self.now.n self.now.heights) number 1 }
        ensures small { result ≤ self.now.n }
    {
        self.heights[..self.n]
            .get(number as usize)
            .copied()
            .unwrap_or(1)
    }

    // The height of the type of number n, by the heights of the smaller.
    fn above(&self, t: &TypeRow) -> u16
        ensures value { result ≡ height_above (take self.now.n self.now.heights) t.now }
        ensures small { result ≤ self.now.n + 1 }
    {
        match Former::try_from(t.kind) {
            Ok(Former::Instance) => 1,
            _ => 1 + self.at(t.a).max(self.at(t.b)),
        }
    }

    // Takes the height of the type of number n.
    fn push(&mut self, t: &TypeRow)
        requires { self.old.n < 256 }
        ensures n { self.new.n ≡ self.old.n + 1 }
        ensures same { (k : ℕ) → k < self.old.n → slice_index_or self.new.heights k 1 ≡ slice_index_or self.old.heights k 1 }
        ensures next { slice_index_or self.new.heights self.old.n 1 ≡ height_above (take self.old.n self.old.heights) t.now }
    {
        self.heights[self.n] = self.above(t);
        self.n += 1;
    }
}
