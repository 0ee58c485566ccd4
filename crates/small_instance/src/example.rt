//! One program with aliased dummies, computed on both sides.

ghost use Rattle.std.specs.Prelude.{◌≡◌, [], ◌∷◌, Some, None};
ghost use Rattle.small_instance.specs.TargetLanguage.{Number};
ghost use Rattle.small_instance.specs.Translation.{translated};
ghost use Rattle.small_instance.specs.Translates.{source_after, target_after};
ghost use Rattle.small_instance.specs.Aliased.{aliased, cells_left, words_left};

/// The program in which one cell is bound to both dummies ends after 11 steps of the source with 12, 17
/// and 12 in the block; a translation that copied arguments in and out would leave another number.
/// Its translation has ended so after 30 steps.
pub fn aliased_runs()
    ensures source { cells_left (source_after aliased (λ k. None) 11) ≡ Some 12 ∷ (Some 17 ∷ (Some 12 ∷ [])) }
    ensures target { words_left (target_after (translated aliased) (λ k. None) 30) ≡ Number 12 ∷ (Number 17 ∷ (Number 12 ∷ [])) }
{}
