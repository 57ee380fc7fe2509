//! The rows of the four tables, each value as read.
ghost use Rattle.std.specs.Prelude.{◌≡◌, ℕ, ◌^◌, ◌<◌, List};
ghost use Rattle.std.proofs.Common.{lit<};
ghost use Rattle.sheet.specs.Rows.{operation_of, instance_of, type_of, part_of, instance_number, type_number, part_number};

/// A row, made of its `W` values.
pub trait Cells<const W: usize>: Copy + From<[u64; W]> {
    // The row of these values.
    ghost made: { List ℕ → Self };

    // There is a value, and an array of them is no larger than memory.
    ghost wide: { (0 < W) × (W < 2 ^ 32) };

    ghost makes: { (values : List ℕ) (row : Self) → Self.from_gives values row → row ≡ made values };
}

/// A row whose first value is its number. A trait with a body for each type, whose ghost member says which column is meant: over a closure `numbered`
/// would need one more condition, and be no plainer.
pub trait Numbered: Copy {
    ghost number_of: { Self → ℕ };

    fn number(&self) -> u64
        ensures { result ≡ number_of self.now };
}

/// Operation `op` of an effect, with the ground types that it takes and gives. They are numbers as read, so that a refusal can name them: that they
/// are those of ground types is for the ranges to judge.
#[derive(Clone, Copy, Debug, PartialEq, Eq, Default)]
pub struct Operation {
    pub effect: u64,
    pub op: u64,
    pub takes: u64,
    pub gives: u64,
}

impl From<[u64; 4]> for Operation {
    ghost from_gives = { λ values row. row ≡ operation_of values };

    fn from([effect, op, takes, gives]: [u64; 4]) -> Operation {
        Operation {
            effect,
            op,
            takes,
            gives,
        }
    }
}

impl Cells<4> for Operation {
    ghost made = { operation_of };

    ghost wide = { (lit< tt, lit< tt) };

    ghost makes = { λ values row e. e };
}

/// An instance and its effect.
#[derive(Clone, Copy, Debug, PartialEq, Eq, Default)]
pub struct Instance {
    pub number: u64,
    pub effect: u64,
}

impl From<[u64; 2]> for Instance {
    ghost from_gives = { λ values row. row ≡ instance_of values };

    fn from([number, effect]: [u64; 2]) -> Instance {
        Instance { number, effect }
    }
}

impl Cells<2> for Instance {
    ghost made = { instance_of };

    ghost wide = { (lit< tt, lit< tt) };

    ghost makes = { λ values row e. e };
}

impl Numbered for Instance {
    ghost number_of = { instance_number };

    fn number(&self) -> u64 {
        self.number
    }
}

/// The number of the first listed type; the ground types have the numbers below it.
pub const FIRST_TYPE: u64 = 4;

/// A listed type. Its kind is a number as read, so that a refusal can name it: that it is one of a type constructor is for the ranges to judge.
#[derive(Clone, Copy, Debug, PartialEq, Eq, Default)]
pub struct TypeRow {
    pub number: u64,
    pub kind: u64,
    pub a: u64,
    pub b: u64,
    pub d: u64,
    pub e: u64,
}

impl From<[u64; 6]> for TypeRow {
    ghost from_gives = { λ values row. row ≡ type_of values };

    fn from([number, kind, a, b, d, e]: [u64; 6]) -> TypeRow {
        TypeRow {
            number,
            kind,
            a,
            b,
            d,
            e,
        }
    }
}

impl Cells<6> for TypeRow {
    ghost made = { type_of };

    ghost wide = { (lit< tt, lit< tt) };

    ghost makes = { λ values row e. e };
}

impl Numbered for TypeRow {
    ghost number_of = { type_number };

    fn number(&self) -> u64 {
        self.number
    }
}

/// A part of the recipe, with its claim: its type and its dirt. Its kind is a number as read, so that a refusal can name
/// it: that some kind has it is for the ranges to judge.
#[derive(Clone, Copy, Debug, PartialEq, Eq, Default)]
pub struct PartRow {
    pub number: u64,
    pub kind: u64,
    pub a: u64,
    pub b: u64,
    pub ty: u64,
    pub dirt: u64,
}

impl From<[u64; 6]> for PartRow {
    ghost from_gives = { λ values row. row ≡ part_of values };

    fn from([number, kind, a, b, ty, dirt]: [u64; 6]) -> PartRow {
        PartRow {
            number,
            kind,
            a,
            b,
            ty,
            dirt,
        }
    }
}

impl Cells<6> for PartRow {
    ghost made = { part_of };

    ghost wide = { (lit< tt, lit< tt) };

    ghost makes = { λ values row e. e };
}

impl Numbered for PartRow {
    ghost number_of = { part_number };

    fn number(&self) -> u64 {
        self.number
    }
}
