//! A host: what it means, which laws it obeys, and its two calls.
ghost use Rattle.std.specs.Prelude.{◌≡◌, false, List, []};
ghost use Rattle.eff.specs.declared.question.Call.{Call};
ghost use Rattle.eff.specs.declared.question.Question.{Question};
ghost use Rattle.host.specs.Meaning.{Replies, Known, SameKnown, Typed, Refusal, Alike, after};

use eff::question::{Call, Question, Reply};

/// Whatever replies to the questions of a computation.
pub trait Host {
    /// What it would reply to a question put after a list of others, all put from now on.
    ghost replies: { Self → Replies };

    /// The calls that it knows.
    ghost known: { Self → Known };

    /// Puts a question: the reply is as meant, and from now on each list means what it meant with that question in front.
    fn ask(&mut self, question: Question) -> Reply
        ensures reply { result ≡ replies self.old [] question }
        ensures afterwards { Alike (replies self.new) (after question (replies self.old)) }
        ensures known { SameKnown (known self.old) (known self.new) };

    /// Whether a call is known.
    fn knows(&self, call: Call) -> bool
        ensures { result ≡ known self.now call };

    /// An answer has the type wanted, a nat being below 2^32.
    ghost typed: { (h : Self) (qs : List Question) (q : Question) → Typed q (replies h qs q) };

    /// A call not known is refused, now and after any list of questions.
    ghost refuses: { (h : Self) (qs : List Question) (q : Question) → known h q.call ≡ false → Refusal (replies h qs q) };
}
