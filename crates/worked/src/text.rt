//! The worked sheet.
ghost use Rattle.std.specs.Prelude.{◌≡◌, Ok};
ghost use Rattle.sheet.specs.Answer.{answer};
ghost use Rattle.worked.specs.Sheets.{worked_text, worked_rows};

/// The bytes of the worked sheet: it cuts 130 micrometres, feels the depth, and ends with one more than was felt.
pub fn worked_sheet() -> &'static [u8]
    ensures text { result.now ≡ worked_text }
    ensures rows { answer result.now ≡ Ok worked_rows }
{
    b"effect op takes gives\n0 0 1 2\n0 1 1 2\n0 2 2 1\n\ninstance effect\n0 0\n\ntype kind a b d e\n4 5 0 1 0 0\n\npart kind a b type dirt\n0 15 0 1 1 6\n1 5 0 0 4 0\n2 2 130 0 1 0\n3 15 0 2 1 4\n4 5 0 0 4 0\n5 4 0 0 2 0\n6 14 0 0 1 0\n7 3 0 0 1 0\n8 0 0 0 1 0\n\n"
}
