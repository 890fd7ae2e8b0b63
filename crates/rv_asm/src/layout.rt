//! What is laid out in the first pass.

ghost use Rattle.std.specs.Prelude.{◌≡◌, ◌≤◌, sum_by};
ghost use Rattle.rv_model.specs.declared.limits.TheConstants.{IMAGE_ROOM};
ghost use Rattle.rv_asm.specs.Sizes.{size_of};
ghost use Rattle.rv_asm.specs.Sound.{ArePlacedSound, ArePlacedSound-prop};

use crate::statement::PlacedStatement;
use crate::symbols::Symbols;
use std::alloc::Global;

/// What the first pass lays out: what the names mean, and the statements with their lines.
#[derive(Drop)]
pub struct Layout<'a> {
    pub alloc: Global,
    pub symbols: Symbols,
    pub statements: Vec<PlacedStatement<'a>>,
    /// How many bytes the statements take.
    pub size: u32,
    ghost counted: { size ≡ sum_by (λ it. size_of it.statement) statements.items },
    ghost fits: { size ≤ IMAGE_ROOM },
    ghost sound: { ArePlacedSound statements.items } by { ArePlacedSound-prop statements.items },
}
