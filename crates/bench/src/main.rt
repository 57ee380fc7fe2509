//! The bench program: runs at three sizes, counted and, given an argument, timed.

#![tactic(auto)]

ghost use Rattle.std.specs.Prelude.{◌≡◌, is_ok};
ghost use Rattle.sheet.specs.Answer.{answer as text_answer};
ghost use Rattle.table.specs.Answer.{answer as table_answer};
ghost use Rattle.shape.specs.Reading.{read_as};
ghost use Rattle.recipe.specs.Admission.{admission, verdict};

mod admitting;
mod running;
mod sheets;
mod speed;

use recipe::{Recipe, admit};
use running::{copied, measure};
use speed::rate;
use std::{env, io};

/// How many lets each run stands under, and for how many steps it then goes on, counted and timed.
const RUNS: [(u16, u32, u32); 3] = [
    (8, 200_000, 6_000_000),
    (98, 20_000, 2_000_000),
    (998, 2_000, 200_000),
];

/// How many times a sheet is judged.
const TIMES: u32 = 4_000;

// What three runs count.
fn count(rt: &HostRuntime) -> io::Result<()> {
    println!(rt; "parts steps")?;
    for (lets, steps, _) in RUNS {
        let measured = measure(rt, lets, steps)?;
        let parts = measured.parts;
        let taken = measured.steps;
        println!(rt; "{parts} {taken}")?;
    }
    Ok(())
}

// How fast the runs go, and how often in a second a sheet is judged.
fn time(rt: &HostRuntime) -> io::Result<()> {
    println!(rt; "parts steps steps/s copied/s")?;
    for (lets, _, steps) in RUNS {
        let measured = measure(rt, lets, steps)?;
        let parts = measured.parts;
        let taken = measured.steps;
        let pace = rate(steps as u64, measured.span);
        let copied = rate(copied(lets, steps), measured.span);
        println!(rt; "{parts} {taken} {pace} {copied}")?;
    }
    println!(rt; "layer judged/s")?;
    pace(
        rt,
        "text",
        |sheet: &[u8]| -> bool
            ensures { result ≡ is_ok (text_answer sheet.now) }
        { sheet::read(sheet).is_ok() },
    )?;
    pace(
        rt,
        "table",
        |sheet: &[u8]| -> bool
            ensures { result ≡ is_ok (table_answer sheet.now) }
        { table::read(sheet).is_ok() },
    )?;
    pace(
        rt,
        "shape",
        |sheet: &[u8]| -> bool
            ensures { result ≡ is_ok (read_as sheet.now) }
        { shape::read(sheet).is_ok() },
    )?;
    let mut place = Recipe::empty();
    pace(
        rt,
        "claim",
        |sheet: &[u8]| -> bool
            ensures { result ≡ is_ok (verdict (admission sheet.now)) }
        { admit(sheet, &mut place).is_ok() },
    )
}

// How often in a second a sheet is judged up to a layer.
fn pace<J: FnMut(&[u8]) -> bool>(rt: &HostRuntime, layer: &str, passes: J) -> io::Result<()>
    requires { J.IsAlwaysCallable passes }
{
    let span = admitting::measure(rt, TIMES, passes)?;
    let pace = rate(TIMES as u64, span.unwrap_or_default());
    println!(rt; "{layer} {pace}")
}

fn main(rt: HostRuntime) -> io::Result<()> {
    if env::args(&rt)?.len() > 1 {
        time(&rt)
    } else {
        count(&rt)
    }
}
