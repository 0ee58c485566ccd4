//! Programs of several files, and the rules of linking. A function here does nothing, and its contract is
//! the rows.
#![tactic(auto, unfolding(c_tree::specs::Opened::meaning_opened))]

ghost use Rattle.std.specs.Prelude.{ℕ, ◌+◌, ◌*◌, ◌<◌, ◌≤◌, ◌≡◌, [], ◌∷◌, codes, None, Some};
ghost use Rattle.c_tree.specs.Linking.{first_broken_rule};
ghost use Rattle.c_rows.specs.LinkPrograms.{Prints, small_block, great_block, imaged_block, imaged_again, main_with_parameters, library_name, declares_unused, passes_missing, with_text, with_integers, with_two_texts, prints_named, naming_list, inner_text};
ghost use Rattle.c_rows.specs.RowTexts.{extern_int};

/// External objects of one name are one object, of the greatest size that a file gives it.
pub fn shared_objects()
    ensures smaller_first { Prints (small_block ∷ great_block ∷ []) (codes "  64") }
    ensures greater_first { Prints (great_block ∷ small_block ∷ []) (codes "  64") }
    ensures image { Prints (small_block ∷ imaged_block ∷ []) (codes "  71") }
    ensures image_first { Prints (imaged_block ∷ small_block ∷ []) (codes "  71") }
{}

/// The least rule that files break.
pub fn link_rules()
    ensures main_takes_nothing { first_broken_rule (main_with_parameters ∷ []) ≡ Some 1 }
    ensures main_before_the_others { first_broken_rule (great_block ∷ great_block ∷ []) ≡ Some 1 }
    ensures one_image { first_broken_rule (small_block ∷ imaged_block ∷ imaged_again ∷ []) ≡ Some 2 }
    ensures name_of_the_library { first_broken_rule (library_name ∷ []) ≡ Some 2 }
    ensures not_used { first_broken_rule (declares_unused ∷ []) ≡ None }
    ensures passed_on { first_broken_rule (passes_missing ∷ []) ≡ Some 3 }
    ensures keeps_all { first_broken_rule (small_block ∷ imaged_block ∷ []) ≡ None }
{}

/// Objects of more than 268,435,456 bytes in all break the fourth rule, those of a function counted once.
pub fn greatest_size()
    ensures text_past_the_limit { (size : ℕ) → 268435456 < size → first_broken_rule (with_text size ∷ []) ≡ Some 4 }
    ensures text_within_the_limit { (size : ℕ) → size ≤ 268435456 → first_broken_rule (with_text size ∷ []) ≡ None }
    ensures integers_past_the_limit { (count : ℕ) → 268435456 < 4 * count → first_broken_rule (with_integers count ∷ []) ≡ Some 4 }
    ensures integers_within_the_limit { (count : ℕ) → 4 * count ≤ 268435456 → first_broken_rule (with_integers count ∷ []) ≡ None }
    ensures sum_past_the_limit { (size : ℕ) → (local_size : ℕ) → 268435456 < size + local_size → first_broken_rule (with_two_texts size local_size ∷ []) ≡ Some 4 }
    ensures sum_within_the_limit { (size : ℕ) → (local_size : ℕ) → size + local_size ≤ 268435456 → first_broken_rule (with_two_texts size local_size ∷ []) ≡ None }
{}

/// A name in a field of a list means what is declared before the list.
pub fn names_before_lists()
    ensures outer_name { Prints (prints_named (naming_list ∷ inner_text ∷ []) ∷ []) (codes "  65") }
    ensures inner_name { Prints (prints_named (inner_text ∷ naming_list ∷ []) ∷ []) (codes "  66") }
    ensures function_behind { first_broken_rule (prints_named (naming_list ∷ extern_int (codes "m_") ∷ []) ∷ []) ≡ None }
    ensures function_before { first_broken_rule (prints_named (extern_int (codes "m_") ∷ naming_list ∷ []) ∷ []) ≡ Some 3 }
{}
