//! The reader's moves: bytes, values, rows and tables.
ghost use Rattle.std.specs.Prelude.{◌≡◌, ◌^◌, ◌<◌, [], ◌∷◌, ◌++◌, length};
ghost use Rattle.sheet.specs.Text.{Table, Row};
ghost use Rattle.sheet.specs.Scan.{wrong, title, line, shut, Place, begin, digit, closing, closed};
ghost use Rattle.sheet.specs.Walk.{reads, then, moves, Digit, Expected, Skipped, rowed, Tabled, Grown};

use crate::draft::Draft;
use crate::reader::Reader;
use crate::rows::Cells;
use fault::{At, TextFault};

// A value n with one more digit, unless n is 0, a leading zero, or the result reaches 2^64.
fn grown(n: u64, d: u8) -> Option<u64>
    ensures { Grown n d result }
{
    if n == 0 {
        return None;
    }
    n.checked_mul(10)?.checked_add(d as u64)
}

impl Reader<'_> {
    // Refusal 1 at this line.
    pub(crate) fn wrong(&self) -> At<TextFault>
        ensures { result ≡ wrong self.now.line }
    {
        At {
            line: self.line,
            fault: TextFault::Form,
        }
    }

    // Takes the next byte if it is a digit.
    fn digit(&mut self) -> Option<u8>
        ensures { Digit self.old self.new result }
    {
        match self.rest {
            [b @ b'0'..=b'9', rest @ ..] => {
                self.rest = rest;
                Some(*b - b'0')
            }
            _ => None,
        }
    }

    // Takes the next byte if it is `want`.
    fn skip(&mut self, want: u8) -> bool
        ensures { Skipped want self.old self.new result }
    {
        match self.rest {
            [b, rest @ ..] if *b == want => {
                self.rest = rest;
                if want == b'\n' {
                    self.line += 1;
                }
                true
            }
            _ => false,
        }
    }

    // Takes the next byte, which has to be `want`.
    fn expect(&mut self, want: u8) -> Result<(), At<TextFault>>
        ensures { Expected want self.old self.new result }
    {
        if self.skip(want) {
            Ok(())
        } else {
            Err(self.wrong())
        }
    }

    // Takes a value and the byte after it, which has to be `close`.
    fn value(&mut self, close: u8) -> Result<u64, At<TextFault>>
        ensures moves { moves result self.old self.new }
        ensures reads { (p : Place) (t : Table) (row : Row) → close ≡ closing p row → reads (begin p t row) self.old ≡ then result (λ n. reads (closed p t row n) self.new) }
    {
        let Some(first) = self.digit() else {
            return Err(self.wrong());
        };
        let mut n = first as u64;
        while let Some(d) = self.digit() {
            let Some(next) = grown(n, d) else {
                return Err(self.wrong());
            };
            n = next;
        }
        self.expect(close)?;
        Ok(n)
    }

    // Takes a line of names.
    fn names(&mut self, names: &[u8]) -> Result<(), At<TextFault>>
        requires { 0 < length names.now }
        ensures { (p : Place) → p.here.names ≡ names.now → reads (title p 0) self.old ≡ then result (λ _. reads (line p []) self.new) }
    {
        for b in names {
            self.expect(*b)?;
        }
        Ok(())
    }

    // Takes a line of values.
    fn values<R: Cells<W>, const W: usize>(&mut self) -> Result<[u64; W], At<TextFault>>
        ensures moves { moves result self.old self.new }
        ensures reads { (p : Place) (t : Table) → p.here.cols ≡ W → reads (begin p t []) self.old ≡ then result (λ values. reads (line p (t ++ values ∷ [])) self.new) }
    {
        let mut values = [0; W];
        for (i, value) in values.iter_mut().enumerate() {
            let close = if i + 1 < W { b' ' } else { b'\n' };
            *value = self.value(close)?;
        }
        Ok(values)
    }

    // Takes a row, or the empty line that ends a table.
    fn row<R: Cells<W>, const W: usize>(&mut self) -> Result<Option<[u64; W]>, At<TextFault>>
        ensures moves { moves result self.old self.new }
        ensures reads { (p : Place) (t : Table) → p.here.cols ≡ W → reads (line p t) self.old ≡ then result (λ row. rowed row p t self.new) }
    {
        if self.skip(b'\n') {
            return Ok(None);
        }
        Ok(Some(self.values::<R, W>()?))
    }

    // Takes a table: its rows as far as there is room, rows of zeros past them, and how many there are.
    pub(crate) fn table<R: Cells<W>, const W: usize, const N: usize>(
        &mut self,
        names: &[u8],
    ) -> Result<Draft<R, N>, At<TextFault>>
        requires { 0 < length names.now }
        ensures { Tabled R.Cells.made names.now W self.old self.new result }
    {
        self.names(names)?;
        let mut rows = [R::from([0; W]); N];
        // how many rows come, which may be more than there is room for
        let mut count = 0;
        while let Some(values) = self.row::<R, W>()? {
            // Not by `get_mut`, which was tried: of what it lends of a slice a proof knows nothing once it is given back.
            if count < N {
                rows[count] = R::from(values);
            }
            count += 1;
        }
        Ok(Draft { rows, count })
    }
}
