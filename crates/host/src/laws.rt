//! What the laws say of every meaning, and that every host has a lawful one.
ghost use Rattle.host.specs.Meaning.{Lawful, MeaningLaw};

use crate::host::Host;

/// The meaning of every host is lawful.
pub fn hosts_are_lawful<T: Host>()
    ensures { (h : T) → Lawful (T.Host.replies h) (T.Host.known h) }
{}

/// A lawful meaning stays lawful under questions, like meanings stay alike, and empty is never answered.
pub fn meaning_law_stands()
    ensures { MeaningLaw }
{}
