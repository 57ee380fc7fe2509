//! The worked cases.
ghost use Rattle.worked.specs.Cases.{Worked};

/// The worked cases come out as stated.
pub fn cases_work()
    ensures { Worked }
{}
