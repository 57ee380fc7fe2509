//! Copying a term with closed values written in for its names.
ghost use Rattle.std.specs.Prelude.{◌≡◌, ◌+◌, ◌*◌, ◌^◌, ◌<◌, ◌≤◌, [], length};
ghost use Rattle.step.specs.Fill.{is_beyond, is_name, written};
ghost use Rattle.step.specs.Copies.{Copies};
ghost use Rattle.step.specs.Puts.{Puts, Reaches};
ghost use Rattle.step.specs.Written.{Kept, in_order};

use crate::halt::Halt;
use crate::write::{Runs, Writer};
use eff::kind::Kind;
use eff::part::Part;

/// Whether a part is the variable of this place.
fn names(part: Part, place: usize) -> bool
    ensures { result ≡ is_name place part }
{
    part.kind == Kind::Variable && part.a as usize == place
}

/// What is written into a term: a value for its latest name and, where there is an argument, that with the value in it for the name beyond.
// An empty slice, which no term is, stands for no argument. An `Option` would be no plainer: what bounds a copy, how many parts there are and in the
// argument, would need a match.
#[derive(Clone, Copy)]
pub(crate) struct Substitution<'a> {
    pub(crate) latest: Runs<'a>,
    pub(crate) argument: &'a [Part],
}

impl Substitution<'_> {
    /// Whether a part is the variable beyond this place, and there is an argument for it.
    fn names_argument(self, part: Part, place: usize) -> bool
        requires { place + 1 < 2 ^ 64 }
        ensures { result ≡ is_beyond self.entry.argument.now place part }
    {
        !self.argument.is_empty() && names(part, place + 1)
    }
}

impl Writer<'_> {
    /// Writes the term that opens the parts, under `depth` names, the latest of them being of place `depth`, and tells what stands behind it.
    fn copy<'a>(
        &mut self,
        parts: &'a [Part],
        depth: usize,
        values: Substitution,
    ) -> Result<&'a [Part], Halt>
        requires { depth + 2 * length parts.now + 2 * length values.argument.now ≤ 2 ^ 63 }
        ensures kept { Kept self.old self.new }
        ensures copies { Copies (written (in_order values.entry.latest) values.entry.argument.now) depth parts.now self.old self.new result }
    {
        let Some((part, mut rest)) = parts.split_first() else {
            return Ok(parts);
        };
        if values.names_argument(*part, depth) {
            let alone = Substitution {
                argument: &[],
                ..values
            };
            self.copy(values.argument, depth, alone)?;
            return Ok(rest);
        }
        if names(*part, depth) {
            self.write_runs(values.latest)?;
            return Ok(rest);
        }
        self.write(&[*part])?;
        for child in part.kind.children() {
            rest = self.copy(rest, depth + child.names as usize, values)?;
        }
        Ok(rest)
    }

    /// Writes the term that opens the parts with the values for its names, and tells what stands behind it.
    pub(crate) fn put<'a>(
        &mut self,
        parts: &'a [Part],
        values: Substitution,
    ) -> Result<&'a [Part], Halt>
        ensures kept { Kept self.old self.new }
        ensures reaches { Reaches parts.now result }
        ensures puts { Puts (in_order values.entry.latest) values.entry.argument.now parts.now self.old self.new result }
    {
        self.copy(parts, 0, values)
    }

    /// The same with one value alone, which is one run of parts.
    pub(crate) fn put_value<'a>(
        &mut self,
        parts: &'a [Part],
        value: &[Part],
    ) -> Result<&'a [Part], Halt>
        ensures kept { Kept self.old self.new }
        ensures reaches { Reaches parts.now result }
        ensures puts { Puts value.now [] parts.now self.old self.new result }
    {
        let latest = Runs {
            head: value,
            first: &[],
            second: &[],
        };
        let values = Substitution {
            latest,
            argument: &[],
        };
        self.put(parts, values)
    }
}
