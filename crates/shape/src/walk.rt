//! The walker's moves: the parts that fill a place.
ghost use Rattle.std.specs.Prelude.{◌≡◌, ◌*◌, ◌<◌, ◌≤◌, [], ◌∷◌, length};
ghost use Rattle.fault.specs.declared.shape.ShapeFault.TheVariants.{Term};
ghost use Rattle.eff.specs.Kinds.{sort_of};
ghost use Rattle.shape.specs.Answer.{want};
ghost use Rattle.shape.specs.Walk.{rows_of, sees, Stands, Took, Moves};

use crate::walker::Walker;
use eff::kind::Kind;
use eff::sort::Sort;
use fault::{At, ShapeFault};

impl Walker<'_> {
    // Refusal 6 at the next part, or at the closing line.
    fn misplaced(&self) -> At<ShapeFault>
        ensures { result ≡ record { line = self.now.line; fault = Term } }
    {
        At {
            line: self.line,
            fault: ShapeFault::Term,
        }
    }

    // The kind of the next part, where that can stand in a place of this sort under so many names.
    fn standing(&self, sort: Sort, names: u64) -> Option<Kind>
        ensures { Stands (want (sort_of sort) names) self.now result }
    {
        let row = self.rest.first()?;
        let kind = Kind::try_from(row.kind).ok()?;
        if kind.sort() != sort || (kind == Kind::Variable && row.a >= names) {
            return None;
        }
        Some(kind)
    }

    // Takes the next part, which stands under so many names.
    fn take(&mut self, names: u64)
        requires { 0 < length (rows_of self.old) }
        ensures { Took names self.old self.new }
    {
        if names > 256 {
            self.crowd.get_or_insert(self.line);
        }
        self.rest = &self.rest[1..];
        self.line += 1;
    }

    // The verdict once one computation is taken: a part left over is named before a crowd.
    pub(crate) fn closed(&self) -> Result<(), At<ShapeFault>>
        ensures { result ≡ sees [] self.now }
    {
        if !self.rest.is_empty() {
            return Err(self.misplaced());
        }
        match self.crowd {
            Some(line) => Err(At {
                line,
                fault: ShapeFault::Names,
            }),
            None => Ok(()),
        }
    }

    // Takes the parts that fill a place of this sort under so many names.
    pub(crate) fn fill(&mut self, sort: Sort, names: u64) -> Result<(), At<ShapeFault>>
        requires { names ≤ 2 * self.old.line }
        ensures { Moves (want (sort_of sort) names ∷ []) self.old self.new result }
    {
        let Some(kind) = self.standing(sort, names) else {
            return Err(self.misplaced());
        };
        self.take(names);
        for child in kind.children() {
            self.fill(child.sort, names + child.names as u64)?;
        }
        Ok(())
    }
}
