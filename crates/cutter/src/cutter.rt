//! The cutter: its state, which can be read, and its replies.
ghost use Rattle.std.specs.Prelude.{◌≡◌, [], ◌∷◌};
ghost use Rattle.cutter.specs.Cutting.{Sound, fresh, depth_of, state_after, cutting, cutter_knows};
ghost use Rattle.cutter.specs.CutterLaws.{cutting_typed, cutting_refuses};

use crate::action::{Action, motor_steps};
use crate::operation::Operation;
use crate::state::State;
use eff::question::{Call, Question, Reply, Value};
use host::host::Host;

/// A key cutter with 16 positions and a carriage.
#[derive(Debug, Drop)]
pub struct Cutter {
    state: State,
    ghost sound: { Sound state },
}

impl Cutter {
    /// A cutter with every depth and the carriage at 0.
    pub fn fresh() -> Cutter
        ensures { result.state ≡ fresh }
    {
        Cutter {
            state: State {
                carriage: 0,
                depths: [0; 16],
            },
        }
    }

    /// The position of the carriage.
    pub fn carriage(&self) -> u8
        ensures { result ≡ self.now.state.carriage }
    {
        self.state.carriage
    }

    /// The depth of a position in motor steps, if there is such a position.
    pub fn depth(&self, position: u8) -> Option<u16>
        ensures { result ≡ depth_of self.now.state position }
    {
        self.state.depths.get(position as usize).copied()
    }
}

impl Host for Cutter {
    ghost replies = { λ c. cutting c.state };

    ghost known = { λ _. cutter_knows };

    ghost typed = { λ c qs q. cutting_typed qs c.state q c.sound };

    ghost refuses = { λ c qs q k. cutting_refuses qs c.state q k };

    fn ask(&mut self, question: Question) -> Reply
        ensures reply { result ≡ cutting self.old.state [] question }
        ensures state { self.new.state ≡ state_after self.old.state (question ∷ []) }
    {
        if !self.knows(question.call) {
            return None;
        }
        let action = Action::of(question.call.op, question.argument)?;
        if !action.gives(question.wanted) {
            return None;
        }
        let state = &mut self.state;
        let at = state.carriage as usize;
        match action {
            Action::Go(position) => {
                state.carriage = position;
                Some(Value::Unit)
            }
            Action::Cut(micrometres) => {
                let depth = state.depths[at];
                state.depths[at] = depth.max(motor_steps(micrometres));
                Some(Value::Unit)
            }
            Action::Feel => Some(Value::Count(50 * state.depths[at] as u64)),
        }
    }

    fn knows(&self, call: Call) -> bool {
        call.instance == 0 && Operation::try_from(call.op).is_ok()
    }
}
