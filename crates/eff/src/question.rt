//! What passes between a computation and its host.
ghost use Rattle.std.specs.Prelude.{◌≡◌};
ghost use Rattle.eff.specs.Questions.{type_of};

use crate::ground::Ground;

/// The call i#j: operation j of instance i.
#[derive(Clone, Copy, Debug, PartialEq, Eq)]
pub struct Call {
    pub instance: u8,
    pub op: u8,
}

/// A value of a ground type; a nat is given by its count.
#[derive(Clone, Copy, Debug, PartialEq, Eq)]
pub enum Value {
    Truth(bool),
    Count(u64),
    Unit,
}

/// The ground type of a value.
impl From<Value> for Ground {
    ghost from_gives = { λ value ground. ground ≡ type_of value };

    fn from(value: Value) -> Ground {
        match value {
            Value::Truth(_) => Ground::Bool,
            Value::Count(_) => Ground::Nat,
            Value::Unit => Ground::Unit,
        }
    }
}

/// A call with its argument and the type of answer wanted.
#[derive(Clone, Copy, Debug, PartialEq, Eq)]
pub struct Question {
    pub call: Call,
    pub argument: Value,
    pub wanted: Ground,
}

/// What a host replies to a question: the answer, or nothing where it refuses.
pub type Reply = Option<Value>;
