//! The ration, which passes a counted number of questions down to the host that it holds.
ghost use Rattle.std.specs.Prelude.{◌≡◌, false, []};
ghost use Rattle.host.specs.Meaning.{Replies, Known, SameKnown, Alike};
ghost use Rattle.host.specs.Rationing.{rationed, passes_down, left_after, below_after, Rationed};
ghost use Rattle.std.proofs.Common.{rules};

use crate::host::Host;
use eff::question::{Call, Question, Reply};

/// What a ration replies once its count is spent.
pub const SPENT: Reply = None;

/// A host with a count of questions that it may still be asked.
#[derive(Debug, Drop)]
pub struct Ration<H> {
    host: H,
    left: u16,
}

impl<H: Host> Ration<H> {
    /// A ration of `count` questions over `host`.
    pub fn new(host: H, count: u16) -> Ration<H>
        ensures { (result.host ≡ host) × (result.left ≡ count) }
    {
        Ration { host, left: count }
    }

    /// How many questions may still be passed down.
    pub fn left(&self) -> u16
        ensures { result ≡ self.now.left }
    {
        self.left
    }

    /// The host below.
    pub fn host(&self) -> &H
        ensures { result.now ≡ self.now.host }
    {
        &self.host
    }

    /// The host below, without its ration.
    pub fn into_host(self) -> H
        ensures { result ≡ self.host }
    {
        let Ration { host, .. } = self;
        host
    }
}

impl<H: Host> Host for Ration<H> {
    ghost replies = { λ s. rationed (H.Host.replies s.host) (H.Host.known s.host) s.left };

    ghost known = { λ s. H.Host.known s.host };

    ghost typed = { Prim.search rules };

    ghost refuses = { Prim.search rules };

    fn ask(&mut self, question: Question) -> Reply
        ensures reply { result ≡ rationed (H.Host.replies self.old.host) (H.Host.known self.old.host) self.old.left [] question }
        ensures left { self.new.left ≡ left_after (H.Host.known self.old.host) self.old.left question }
        ensures below { Alike (H.Host.replies self.new.host) (below_after (H.Host.known self.old.host) self.old.left question (H.Host.replies self.old.host)) }
        ensures known { SameKnown (H.Host.known self.old.host) (H.Host.known self.new.host) }
        ensures kept { passes_down (H.Host.known self.old.host) self.old.left question ≡ false → self.new.host ≡ self.old.host }
    {
        let Ration { host, left } = self;
        if !host.knows(question.call) {
            return None;
        }
        if *left == 0 {
            return SPENT;
        }
        *left -= 1;
        host.ask(question)
    }

    fn knows(&self, call: Call) -> bool {
        self.host.knows(call)
    }
}

/// A ration answers at most its count, and until that is spent it replies as the host below would.
pub fn ration_law_stands()
    ensures { (below : Replies) (known : Known) → Rationed below known }
{}
