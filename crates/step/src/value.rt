//! The values of closed expressions.
ghost use Rattle.std.specs.Prelude.{◌≡◌};
ghost use Rattle.step.specs.Valued.{shown_first, shown_parts, valued};
ghost use Rattle.step.specs.Values.{kind_number, value_number};

use eff::former::Former;
use eff::ground::Ground;
use eff::kind::Kind;
use eff::part::Part;
use eff::question::Value;

/// A closed expression as a report shows it.
#[derive(Clone, Copy, Debug, PartialEq, Eq)]
pub enum Shown {
    /// A value of ground type.
    Ground(Value),
    /// A function.
    Function,
    /// The instance of this number.
    Instance(u32),
    /// A handler.
    Handler,
    /// No value.
    Nothing,
}

impl Shown {
    /// The expression that opens the parts.
    // No `From`: what may stand behind the expression is not shown.
    pub(crate) fn of(parts: &[Part]) -> Shown
        ensures { result ≡ shown_parts parts.now }
    {
        match worth(parts) {
            Some(value) => Shown::Ground(value),
            None => shown_kind(parts),
        }
    }

    /// The number of its ground type or of its type's constructor; of the empty type where it is no value.
    pub fn kind(self) -> u8
        ensures { result ≡ kind_number self }
    {
        match self {
            Shown::Ground(value) => u8::from(Ground::from(value)),
            Shown::Function => u8::from(Former::Function),
            Shown::Instance(_) => u8::from(Former::Instance),
            Shown::Handler => u8::from(Former::Handler),
            Shown::Nothing => u8::from(Ground::Empty),
        }
    }

    /// Its truth, its count or its instance; 0 where it has none.
    pub fn number(self) -> u64
        ensures { result ≡ value_number self }
    {
        match self {
            Shown::Ground(Value::Truth(truth)) => truth as u64,
            Shown::Ground(Value::Count(count)) => count,
            Shown::Instance(instance) => instance as u64,
            _ => 0,
        }
    }
}

/// The value of the expression that opens the parts, if it is of a ground type.
pub(crate) fn worth(parts: &[Part]) -> Option<Value>
    ensures { result ≡ valued parts.now }
{
    // A loop: `position` would test each kind for a successor, and the one it stops at would then be matched all the same.
    let mut more = 0;
    for part in parts {
        match part.kind {
            Kind::Successor => more += 1,
            Kind::Numeral => return Some(Value::Count(more + part.a as u64)),
            Kind::Truth => return (more == 0).then_some(Value::Truth(part.a != 0)),
            Kind::Unit => return (more == 0).then_some(Value::Unit),
            _ => return None,
        }
    }
    None
}

/// How a report shows the expression that opens the parts if it is not of a ground type.
fn shown_kind(parts: &[Part]) -> Shown
    ensures { result ≡ shown_first parts.now }
{
    let Some(part) = parts.first() else {
        return Shown::Nothing;
    };
    match part.kind {
        Kind::Function => Shown::Function,
        Kind::Instance => Shown::Instance(part.a),
        Kind::Handler => Shown::Handler,
        _ => Shown::Nothing,
    }
}
