//! What the lines of a sheet are.
ghost use Rattle.sheet.specs.Lines.{LinesAreCounted};

/// The line of a row is one more than the line feeds before it.
pub fn lines_are_counted()
    ensures { LinesAreCounted }
{}
