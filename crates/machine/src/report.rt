//! Where a run stands, and its report.
ghost use Rattle.std.specs.Prelude.{◌≡◌, Some};
ghost use Rattle.machine.specs.Reports.{five, word, text};

use eff::question::Call;
use std::fmt;
use step::Shown;

/// Where a run stands.
#[derive(Clone, Copy, Debug, PartialEq, Eq)]
pub enum State {
    /// It was made against the test, and runs no recipe.
    Refused,
    /// Its allowance is spent.
    Paused,
    /// Its computation is a val of this value.
    Done(Shown),
    /// The host refused this call.
    Stopped(Call),
    /// Its next computation has more parts than the shorter slab.
    Full,
    /// It has taken as many steps as a run may.
    Limit,
}

/// The state's word.
impl fmt::Display for State {
    ghost output = { λ state. Some (word state) };

    fn fmt<W: fmt::Write>(&self, f: &mut fmt::Formatter<W>) -> fmt::Result {
        f.write_str(match self {
            State::Refused => "refused",
            State::Paused => "paused",
            State::Done(_) => "done",
            State::Stopped(_) => "stopped",
            State::Full => "full",
            State::Limit => "limit",
        })
    }
}

/// A run's report: its state, its steps, and how many questions it has put.
#[derive(Clone, Copy, Debug, PartialEq, Eq)]
pub struct Report {
    pub state: State,
    pub steps: u32,
    pub asked: u32,
}

impl Report {
    /// The report's value a.
    pub fn a(self) -> u8
        ensures { result ≡ (five self).a }
    {
        match self.state {
            State::Done(shown) => shown.kind(),
            State::Stopped(call) => call.instance,
            _ => 0,
        }
    }

    /// The report's value b.
    pub fn b(self) -> u64
        ensures { result ≡ (five self).b }
    {
        match self.state {
            State::Done(shown) => shown.number(),
            State::Stopped(call) => call.op as u64,
            _ => 0,
        }
    }
}

/// A line of names, and the report's five values under it.
impl fmt::Display for Report {
    ghost output = { λ report. Some (text report) };

    fn fmt<W: fmt::Write>(&self, f: &mut fmt::Formatter<W>) -> fmt::Result {
        let Report {
            state,
            steps,
            asked,
        } = *self;
        let (a, b) = (self.a(), self.b());
        write!(f, "state steps asked a b\n{state} {steps} {asked} {a} {b}")
    }
}
