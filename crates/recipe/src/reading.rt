//! What is read of a recipe.
ghost use Rattle.std.specs.Prelude.{◌≡◌, ◌≤◌, ◌==◌};
ghost use Rattle.sheet.specs.Rows.{no_rows};
ghost use Rattle.sheet.specs.Answer.{contents, holding};
ghost use Rattle.recipe.specs.Readers.{rows, size, part_at, claim_columns};

use crate::recipe::Recipe;
use eff::kind::Kind;
use eff::part::Part;
use sheet::{Dirty, Tables};

impl Recipe {
    /// An empty place: all zero, without a part.
    pub fn empty() -> Recipe
        ensures { contents result.tables ≡ holding no_rows }
    {
        Recipe {
            tables: Tables::empty(),
        }
    }

    /// The tables.
    pub fn tables(&self) -> &Tables
        ensures { result.now ≡ self.now.tables }
    {
        &self.tables
    }

    /// How many parts there are.
    pub fn size(&self) -> usize
        ensures value { result ≡ size self.now }
        ensures few { result ≤ 1024 }
    {
        self.tables.parts.len()
    }

    /// Whether the place is empty.
    pub fn is_empty(&self) -> bool
        ensures { result ≡ (size self.now == 0) }
    {
        self.size() == 0
    }

    /// The part of number `at`; a nil past the last.
    pub fn part(&self, at: usize) -> Part
        ensures { result ≡ part_at self.now at }
    {
        let Some(row) = self.tables.parts.listed().get(at) else {
            return Part::default();
        };
        // No `From<PartRow>`: the casts are exact for a recipe's rows, but not for every row.
        Part {
            kind: Kind::try_from(row.kind).unwrap_or_default(),
            b: row.b as u8,
            a: row.a as u32,
        }
    }

    /// What the recipe claims: its first part's type and dirt; zeros where it is empty.
    pub fn claim(&self) -> Dirty
        ensures { result ≡ claim_columns (rows self.now) }
    {
        let first = self.tables.parts.listed().first().copied();
        Dirty::from(first.unwrap_or_default())
    }
}
