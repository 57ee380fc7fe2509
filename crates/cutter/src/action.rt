//! What a question asks of the cutter.
ghost use Rattle.std.specs.Prelude.{◌≡◌};
ghost use Rattle.cutter.specs.Actions.{motor_steps, action_of, gives};

use crate::operation::Operation;
use eff::ground::Ground;
use eff::question::Value;

/// An action: go to a position, cut by micrometres, or feel.
#[derive(Clone, Copy)]
pub enum Action {
    Go(u8),
    Cut(u16),
    Feel,
}

/// Micrometres in motor steps.
pub fn motor_steps(micrometres: u16) -> u16
    ensures { result ≡ motor_steps micrometres }
{
    ((micrometres as u32 + 25) / 50) as u16
}

impl Action {
    /// The action of operation `op` with its argument, if that is in range.
    // A `TryFrom` of the pair would be no plainer: the pair would only be made to be taken apart.
    pub fn of(op: u8, argument: Value) -> Option<Action>
        ensures { result ≡ action_of op argument }
    {
        match (Operation::try_from(op).ok()?, argument) {
            (Operation::Go, Value::Count(n)) if n <= 15 => Some(Action::Go(n as u8)),
            (Operation::Cut, Value::Count(n)) if n <= 6000 => Some(Action::Cut(n as u16)),
            (Operation::Feel, Value::Unit) => Some(Action::Feel),
            _ => None,
        }
    }

    /// Whether what the action gives is of the type wanted.
    pub fn gives(self, wanted: Ground) -> bool
        ensures { result ≡ gives self wanted }
    {
        matches!(
            (self, wanted),
            (Action::Go(_) | Action::Cut(_), Ground::Unit) | (Action::Feel, Ground::Nat)
        )
    }
}
