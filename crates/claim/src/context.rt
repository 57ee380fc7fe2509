//! The types of the names in scope.
ghost use Rattle.std.specs.Prelude.{◌≡◌, ◌∷◌, slice_get};

use crate::form::Form;

/// The types of the names in scope, the latest first: each links to those outside it, on the stack, as the bench allocates nothing.
#[derive(Clone, Copy)]
pub(crate) enum Context<'a> {
    Empty,
    Under(Form, &'a Context<'a>),
}

impl Context<'_> {
    ghost use Rattle.claim.specs.Context.{forms};

    // These names and one more, the latest.
    pub(crate) fn under(&self, latest: Form) -> Context<'_>
        ensures { forms result ≡ latest ∷ forms self.now }
    {
        // Reborrowed: the proof asks for it where a lifetime is shortened.
        Context::Under(latest, &*self)
    }

    // The type of the name of this place, the latest being of place 0.
    pub(crate) fn get(&self, place: u64) -> Option<Form>
        ensures { result ≡ slice_get (forms self.now) place }
    {
        let mut names = self;
        for _ in 0..place {
            match names {
                Context::Empty => return None,
                Context::Under(_, outer) => names = outer,
            }
        }
        match names {
            Context::Empty => None,
            Context::Under(latest, _) => Some(*latest),
        }
    }
}
