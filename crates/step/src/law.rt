//! How values are shown, by their types.
ghost use Rattle.step.specs.Shown.{ValuesAreShown};

/// A closed value whose claims follow is shown with the number of its type.
pub fn values_are_shown()
    ensures { ValuesAreShown }
{}
