//! Judges a sheet, and runs what is admitted.
ghost use Rattle.std.specs.Prelude.{◌≡◌, length};
ghost use Rattle.recipe.specs.Readers.{rows};
ghost use Rattle.counter.specs.Judged.{found, judged, ran};
ghost use Rattle.recipe.specs.Admission.{admission};

use cutter::cutter::Cutter;
use eff::part::Part;
use fault::{At, Refusal, RunFault, StartFault};
use machine::Report;
use recipe::{Recipe, admit};
use runs::{advance, make, test};

/// The allowance of the one advance.
const ALLOWANCE: u32 = 1_000_000;

/// How many parts each slab has.
const SLAB: usize = 512;

// The report on a run of a recipe in two slabs over a fresh cutter, or refusal 9.
fn run<'a>(
    recipe: &'a Recipe,
    first: &'a mut [Part],
    second: &'a mut [Part],
) -> Result<Report, At<StartFault>>
    ensures { result ≡ ran (rows recipe.now) (length first.old) (length second.old) }
{
    test(recipe, first, second)?;
    let mut host = Cutter::fresh();
    let run = make(recipe, first, second);
    let run = advance(run, &mut host, ALLOWANCE);
    Ok(run.read())
}

// The report on the run of a sheet, or the first refusal.
fn admit_and_run(sheet: &[u8]) -> Result<Report, At<RunFault>>
    ensures { result ≡ found (admission sheet.now) }
{
    let mut place = Recipe::empty();
    admit(sheet, &mut place)?;
    let mut first = [Part::default(); SLAB];
    let mut second = [Part::default(); SLAB];
    Ok(run(&place, &mut first, &mut second)?)
}

/// The report on these bytes, or why they are refused.
pub fn judge(bytes: &[u8]) -> Result<Report, Refusal<RunFault>>
    ensures { result ≡ judged bytes.now }
{
    Refusal::<RunFault>::within_limit(bytes)?;
    Ok(admit_and_run(bytes)?)
}

#[cfg(test)]
mod tests {
    use super::*;
    use fault::{ClaimFault, ShapeFault, TableFault, TextFault};

    #[test]
    fn longest(rt: HostRuntime) {
        let form = TableFault::Text(TextFault::Form);
        let at = At {
            line: 1,
            fault: RunFault::Claim(ClaimFault::Shape(ShapeFault::Table(form))),
        };
        assert_eq!(rt; judge(&[0; 16384]), Err(Refusal::Fault(at)));
        assert_eq!(rt; judge(&[0; 16385]), Err(Refusal::TooLong));
    }
}
