//! The mute host, which knows no call.
ghost use Rattle.std.specs.Prelude.{false, None};
ghost use Rattle.std.proofs.Common.{rules};

use crate::host::Host;
use eff::question::{Call, Question, Reply};

/// The host that knows nothing.
#[derive(Clone, Copy, Debug)]
pub struct Mute;

impl Host for Mute {
    ghost replies = { λ _ _ _. None };

    ghost known = { λ _ _. false };

    ghost typed = { Prim.search rules };

    ghost refuses = { Prim.search rules };

    fn ask(&mut self, _question: Question) -> Reply {
        None
    }

    fn knows(&self, _call: Call) -> bool {
        false
    }
}
