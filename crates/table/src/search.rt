//! A search through rows for the first that fails a test.
ghost use Rattle.std.specs.Prelude.{◌≡◌, ℕ, ◌+◌, ◌^◌, ◌<◌, Bool, length};
ghost use Rattle.fault.specs.Search.{search};

use fault::At;

// The first row that fails a test, as a fault at its line; the first of the rows is at `line` and has the number `first`. Where each call of
// `ok` answers as a test does, the result is what the definition gives for that test.
// A loop: what `position` finds would have to be made a fault all the same. Not public, so that `sheet` has its own: a closure's call has a condition,
// and no public function may have one.
pub(crate) fn search<R, F: Copy, T: Fn(u64, &R) -> bool>(
    fault: F,
    ok: T,
    line: u64,
    first: u64,
    rows: &[R],
) -> Result<(), At<F>>
    requires callable { T.IsAlwaysCallable ok }
    requires lines { line + length rows.now < 2 ^ 64 }
    requires numbers { first + length rows.now < 2 ^ 64 }
    ensures { (test : ℕ → R → Bool) → ((n : ℕ) (row : _) (b : Bool) → n < first + length rows.now → T.post ok n row b → b ≡ test n row.now) → result ≡ search fault test line first rows.now }
{
    for (i, row) in rows.iter().enumerate() {
        let i = i as u64;
        if !ok(first + i, row) {
            return Err(At {
                line: line + i,
                fault,
            });
        }
    }
    Ok(())
}
