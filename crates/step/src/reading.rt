//! Whether parts are those of one computation.
ghost use Rattle.std.specs.Prelude.{◌≡◌, Decides};
ghost use Rattle.eff.specs.Spelling.{Whole};
ghost use Rattle.eff.specs.Kinds.{sort_of};
ghost use Rattle.step.specs.Reading.{Ending, opens, tidy as tidy_part};

use eff::kind::Kind;
use eff::part::Part;
use eff::sort::Sort;

/// Whether the columns that a part's kind has no use for are 0, and a truth's is 0 or 1.
// Crate `table` judges the same columns by the tables of a sheet, an effect and its operation in one test; here a column is only 0, or a truth. A table
// of columns for both would still be read by two functions, and so be no plainer.
fn tidy(part: Part) -> bool
    ensures { result ≡ tidy_part part }
{
    match part.kind {
        Kind::Truth => part.a < 2 && part.b == 0,
        Kind::Variable
        | Kind::Numeral
        | Kind::Instance
        | Kind::Function
        | Kind::Handler
        | Kind::LetRec => part.b == 0,
        Kind::Case | Kind::Call => true,
        Kind::Successor
        | Kind::Unit
        | Kind::Nil
        | Kind::If
        | Kind::Match
        | Kind::Absurd
        | Kind::Apply
        | Kind::Val
        | Kind::Let
        | Kind::With => part.a == 0 && part.b == 0,
    }
}

/// Whether a part can be the first of a term of this sort.
fn begins(part: Part, wanted: Sort) -> bool
    ensures { result ≡ opens (sort_of wanted) part }
{
    part.kind.sort() == wanted && tidy(part)
}

/// The parts behind the term of this sort that opens the parts, if there is one.
fn after_term(parts: &[Part], wanted: Sort) -> Option<&[Part]>
    ensures { Ending (sort_of wanted) parts.now result }
{
    let (first, mut rest) = parts.split_first()?;
    if !begins(*first, wanted) {
        return None;
    }
    for child in first.kind.children() {
        rest = after_term(rest, child.sort)?;
    }
    Some(rest)
}

/// Whether these parts are those of one computation.
pub fn is_computation(parts: &[Part]) -> bool
    ensures { Decides result (Whole parts.now) }
{
    after_term(parts, Sort::Computation).is_some_and(|rest| rest.is_empty())
}
