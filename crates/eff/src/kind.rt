//! The kinds of parts, by number.
ghost use Rattle.std.specs.Prelude.{◌≡◌, map};
ghost use Rattle.eff.specs.Kinds.{number, by_number, table, sort_of, child_of};

use crate::number::NoSuchNumber;
use crate::sort::{Child, Sort};

/// The kind of a part: expressions, then case lists, then computations. A slab that holds no term yet is filled with nils.
#[derive(Clone, Copy, Debug, Default, PartialEq, Eq)]
pub enum Kind {
    Variable,
    Truth,
    Numeral,
    Successor,
    Unit,
    Instance,
    Function,
    Handler,
    Case,
    #[default]
    Nil,
    If,
    Match,
    Absurd,
    Apply,
    Val,
    Call,
    Let,
    LetRec,
    With,
}

impl Kind {
    /// The sort of a part of this kind.
    pub fn sort(self) -> Sort
        ensures { sort_of result ≡ (table self).sort }
    {
        match self {
            Kind::Variable
            | Kind::Truth
            | Kind::Numeral
            | Kind::Successor
            | Kind::Unit
            | Kind::Instance
            | Kind::Function
            | Kind::Handler => Sort::Expression,
            Kind::Case | Kind::Nil => Sort::Cases,
            Kind::If
            | Kind::Match
            | Kind::Absurd
            | Kind::Apply
            | Kind::Val
            | Kind::Call
            | Kind::Let
            | Kind::LetRec
            | Kind::With => Sort::Computation,
        }
    }

    /// The children of a part of this kind, in order.
    pub fn children(self) -> &'static [Child]
        ensures { map child_of result.now ≡ (table self).children }
    {
        match self {
            Kind::Variable
            | Kind::Truth
            | Kind::Numeral
            | Kind::Unit
            | Kind::Instance
            | Kind::Nil => &[],
            Kind::Successor | Kind::Absurd | Kind::Val => &[EXPRESSION],
            Kind::Function => &[COMPUTATION_1],
            Kind::Handler => &[COMPUTATION_1, CASES],
            Kind::Case => &[EXPRESSION, COMPUTATION_2, CASES],
            Kind::If => &[EXPRESSION, COMPUTATION, COMPUTATION],
            Kind::Match => &[EXPRESSION, COMPUTATION, COMPUTATION_1],
            Kind::Apply => &[EXPRESSION, EXPRESSION],
            Kind::Call => &[EXPRESSION, EXPRESSION, COMPUTATION_1],
            Kind::Let => &[COMPUTATION, COMPUTATION_1],
            Kind::LetRec => &[COMPUTATION_2, COMPUTATION_1],
            Kind::With => &[EXPRESSION, COMPUTATION],
        }
    }
}

// The children that parts have: a computation stands under none, one or two names more.
const EXPRESSION: Child = Child {
    sort: Sort::Expression,
    names: 0,
};

const CASES: Child = Child {
    sort: Sort::Cases,
    names: 0,
};

const COMPUTATION: Child = Child {
    sort: Sort::Computation,
    names: 0,
};

const COMPUTATION_1: Child = Child {
    sort: Sort::Computation,
    names: 1,
};

const COMPUTATION_2: Child = Child {
    sort: Sort::Computation,
    names: 2,
};

/// The number of a kind in a sheet.
impl From<Kind> for u8 {
    ghost from_gives = { λ kind n. n ≡ number kind };

    fn from(kind: Kind) -> u8 {
        kind as u8
    }
}

/// The kind that has this number.
impl TryFrom<u64> for Kind {
    type Error = NoSuchNumber;

    ghost try_from_gives = { λ n r. r ≡ by_number n };

    fn try_from(number: u64) -> Result<Kind, NoSuchNumber> {
        match number {
            0 => Ok(Kind::Variable),
            1 => Ok(Kind::Truth),
            2 => Ok(Kind::Numeral),
            3 => Ok(Kind::Successor),
            4 => Ok(Kind::Unit),
            5 => Ok(Kind::Instance),
            6 => Ok(Kind::Function),
            7 => Ok(Kind::Handler),
            8 => Ok(Kind::Case),
            9 => Ok(Kind::Nil),
            10 => Ok(Kind::If),
            11 => Ok(Kind::Match),
            12 => Ok(Kind::Absurd),
            13 => Ok(Kind::Apply),
            14 => Ok(Kind::Val),
            15 => Ok(Kind::Call),
            16 => Ok(Kind::Let),
            17 => Ok(Kind::LetRec),
            18 => Ok(Kind::With),
            _ => Err(NoSuchNumber { number }),
        }
    }
}
