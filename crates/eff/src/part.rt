//! A term's parts.
ghost use Rattle.std.specs.Prelude.{◌≡◌};
ghost use Rattle.eff.specs.Questions.{value_part};

use crate::kind::Kind;
use crate::question::Value;

/// A part of a term: its kind and the kind's two columns, 0 where it has no use for one. Columns and no payloads: a kind is also asked
/// for alone (`Kind::sort`), so that an enum with payloads would be a second list of the kinds. In this order a part takes 8 bytes.
#[derive(Clone, Copy, Debug, Default, PartialEq, Eq)]
pub struct Part {
    pub kind: Kind,
    pub b: u8,
    pub a: u32,
}

/// The part of a value's term; a count past what a numeral holds is cut down to that.
impl From<Value> for Part {
    ghost from_gives = { λ value part. part ≡ value_part value };

    fn from(value: Value) -> Part {
        let (kind, a) = match value {
            Value::Truth(truth) => (Kind::Truth, truth as u32),
            Value::Count(count) => (Kind::Numeral, u32::try_from(count).unwrap_or(u32::MAX)),
            Value::Unit => (Kind::Unit, 0),
        };
        Part { kind, b: 0, a }
    }
}
