//! Rows of storage that small programs break. Nothing is run here: the clauses are computed from the trees.
#![tactic(auto)]

ghost use Rattle.std.specs.Prelude.{◌∷◌, [], ◌≡◌, codes, Some, None};
ghost use Rattle.declaration_rows.specs.f_tree.declared.expressions.Expr as expr;
ghost use Rattle.fortran_rows.specs.WorkedSources.{I, arrays_equivalenced, common_seen_twice, constants_and_bounds, num, text, types_equivalenced, values_from_data};
ghost use Rattle.fortran_rows.specs.StorageSources.{arrays_over_their_file, block_named_external, common_made_longer, common_that_differs_by_unit, locals_that_stay, overlay_in_a_chain, overlay_of_a_matrix, texts_that_overlap, values_before_the_run, values_of_a_block};
ghost use Rattle.declaration_samples.specs.CardRows.{at_card, rows_of, storage_rows_of, shared_rows_of, later_rows_of_all};
ghost use Rattle.declaration_samples.specs.OrderSources.{small_main, two_units};
ghost use Rattle.declaration_samples.specs.StorageStrays.{array_of, block_data_of_b, block_extended, blocks_joined, C, calling_with, common_filled, compared_to, joined_to, lengths_that_differ, number_behind_a_text, setting_d, tied_twice, value_given_twice, values_of_i};

/// Equivalences, blocks and values that break a row of storage, and others that do not quite.
pub fn storage_breaks_rows()
    ensures place_tied_to_two { storage_rows_of (tied_twice 2) ≡ at_card 3 35 ∷ [] }
    ensures place_tied_again { storage_rows_of (tied_twice 1) ≡ [] }
    ensures subscript_past_the_last { storage_rows_of (tied_twice 3) ≡ at_card 3 35 ∷ [] }
    ensures blocks_joined { storage_rows_of blocks_joined ≡ at_card 3 36 ∷ [] }
    ensures block_extended_before_its_start { storage_rows_of (block_extended 2) ≡ at_card 3 36 ∷ [] }
    ensures block_extended_behind_its_end { storage_rows_of (block_extended 1) ≡ [] }
    ensures number_past_a_word { storage_rows_of (number_behind_a_text 3) ≡ at_card 2 46 ∷ [] }
    ensures number_on_a_word { storage_rows_of (number_behind_a_text 4) ≡ [] }
    ensures one_value { storage_rows_of (values_of_i (num 1 ∷ [])) ≡ [] }
    ensures two_values { storage_rows_of (values_of_i (num 1 ∷ num 2 ∷ [])) ≡ at_card 1 34 ∷ [] }
    ensures value_of_another_type { storage_rows_of (values_of_i (text (codes "A") ∷ [])) ≡ at_card 1 34 ∷ [] }
    ensures value_given_twice { storage_rows_of value_given_twice ≡ at_card 2 34 ∷ [] }
    ensures blank_common_filled { storage_rows_of (common_filled None) ≡ at_card 2 38 ∷ [] }
    ensures block_filled_outside { storage_rows_of (common_filled (Some (codes "b"))) ≡ at_card 2 38 ∷ [] }
    ensures block_data { storage_rows_of (two_units (block_data_of_b (codes "x") 2 3) small_main) ≡ [] }
{}

/// Blocks whose lengths differ, that are filled twice, and storage that is too large.
pub fn blocks_of_units_break_rows()
    ensures named_lengths { shared_rows_of (lengths_that_differ (Some (codes "b"))) ≡ at_card 5 50 ∷ [] }
    ensures blank_lengths { shared_rows_of (lengths_that_differ None) ≡ [] }
    ensures filled_twice { shared_rows_of (two_units (block_data_of_b (codes "x") 2 3) (block_data_of_b (codes "y") 5 6)) ≡ at_card 6 54 ∷ [] }
    ensures largest_storage { shared_rows_of (array_of 16777216) ≡ [] }
    ensures storage_too_large { shared_rows_of (array_of 16777217) ≡ at_card 1 53 ∷ [] }
{}

/// The worked programs with shared storage and values break none.
pub fn worked_storage_breaks_none()
    ensures worked { later_rows_of_all (common_seen_twice ∷ arrays_equivalenced ∷ types_equivalenced I ∷ values_from_data ∷ constants_and_bounds ∷ []) ≡ [] }
    ensures examples { later_rows_of_all (arrays_over_their_file ∷ block_named_external ∷ common_made_longer ∷ common_that_differs_by_unit ∷ locals_that_stay ∷ []) ≡ [] }
    ensures overlays { later_rows_of_all (overlay_in_a_chain ∷ overlay_of_a_matrix ∷ texts_that_overlap ∷ values_before_the_run ∷ values_of_a_block ∷ []) ≡ [] }
{}

/// Uses of length `(*)`, and items that are too large.
pub fn lengths_break_rows()
    ensures joined_and_assigned { rows_of (setting_d (joined_to C)) ≡ [] }
    ensures joined_and_passed { rows_of (calling_with (joined_to C)) ≡ at_card 4 39 ∷ [] }
    ensures two_places_of_it_joined { rows_of (calling_with (joined_to (expr.Part C (Some (num 1)) (Some (num 2))))) ≡ [] }
    ensures passed { rows_of (calling_with C) ≡ [] }
    ensures passed_in_parentheses { rows_of (calling_with (expr.Paren C)) ≡ at_card 4 39 ∷ [] }
    ensures compared { rows_of (compared_to (text (codes "A"))) ≡ [] }
    ensures item_too_large { rows_of (array_of 16777217) ≡ at_card 1 53 ∷ [] }
    ensures largest_item { rows_of (array_of 16777216) ≡ [] }
{}
