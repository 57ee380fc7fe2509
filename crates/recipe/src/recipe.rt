//! The place of a recipe.
ghost use Rattle.recipe.specs.Admitted.{Sound};

use sheet::Tables;

/// A recipe's tables, or zeros: an empty place. Zeros and no `Option`, since what a refusal leaves of a place is promised word by word.
#[derive(Drop)]
pub struct Recipe {
    pub(crate) tables: Tables,
    ghost sound: { ∥ Sound tables ∥₁ },
}
