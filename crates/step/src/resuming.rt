//! A continuation with an answer's value for its name.
ghost use Rattle.std.specs.Prelude.{length};
ghost use Rattle.eff.specs.Spelling.{term_of};
ghost use Rattle.step.specs.Steps.{Resumes};

use crate::computation::Computation;
use crate::write::Writer;
use eff::part::Part;
use eff::question::Value;

/// Writes a continuation to the start of a slab, with an answer's value for its name, and answers how many parts it then has: as many as before, so that
/// it fits where there is room for the continuation; none where there is not.
pub fn resume(continuation: Computation, value: Value, to: &mut [Part]) -> Option<usize>
    ensures { Resumes value (term_of continuation.entry.parts.now) (length to.old) to.new result }
{
    let mut writer = Writer::new(to);
    writer
        .put_value(continuation.parts, &[Part::from(value)])
        .ok()?;
    Some(writer.filled)
}
