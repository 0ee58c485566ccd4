//! Rows of order, of blocks, of references, of formats and of global names that small programs break. Nothing is run here: the clauses are
//! computed from the trees.
#![tactic(auto)]

ghost use Rattle.std.specs.Prelude.{◌∷◌, [], ◌≡◌, codes, Some};
ghost use Rattle.declaration_rows.specs.f_tree.declared.expressions.Expr as expr;
ghost use Rattle.fortran_rows.specs.WorkedSources.{num, text};
ghost use Rattle.declaration_samples.specs.CardRows.{at_card, rows_of, shared_rows_of};
ghost use Rattle.declaration_samples.specs.OrderSources.{assignment_in_block_data, branch_into_a_loop, branch_out_of_an_arm, branch_within_a_loop, character_function_passed, common_saved, computed_branch_into_an_arm, constant_shaped, constant_typed_too_late, constants_among_implicits, definition_too_late, dummy_twice, external_and_intrinsic, saved_and_typed, shaped_twice, typed_twice, dimension_too_late, entry_in_a_loop, entry_of_a_main_program, format_of_text, implicit_too_late, implicit_twice, return_of_a_main_program, second_call, small_main, small_subroutine, two_units, variable_declared, variable_not_declared, with_block, written_by};

/// Statements out of their order, and others in it.
pub fn orders_break_rows()
    ensures dimension_too_late { rows_of dimension_too_late ≡ at_card 2 25 ∷ [] }
    ensures implicit_too_late { rows_of implicit_too_late ≡ at_card 2 25 ∷ [] }
    ensures constants_among_implicits { rows_of constants_among_implicits ≡ [] }
    ensures constant_typed_too_late { rows_of constant_typed_too_late ≡ at_card 2 25 ∷ [] }
    ensures return_of_a_main_program { rows_of return_of_a_main_program ≡ at_card 1 25 ∷ [] }
    ensures assignment_in_block_data { rows_of assignment_in_block_data ≡ at_card 2 25 ∷ [] }
    ensures definition_too_late { rows_of definition_too_late ≡ at_card 2 40 ∷ [] }
    ensures variable_not_declared { rows_of variable_not_declared ≡ at_card 2 21 ∷ [] }
    ensures variable_declared { rows_of variable_declared ≡ [] }
    ensures implicit_twice { rows_of implicit_twice ≡ at_card 2 25 ∷ [] }
{}

/// Branches into blocks and loops, and ENTRY where none may stand; and branches that leave them.
pub fn blocks_break_rows()
    ensures entry_of_a_main_program { rows_of entry_of_a_main_program ≡ at_card 1 41 ∷ [] }
    ensures entry_in_a_loop { rows_of entry_in_a_loop ≡ at_card 3 41 ∷ [] }
    ensures branch_into_a_loop { rows_of branch_into_a_loop ≡ at_card 1 28 ∷ [] }
    ensures branch_within_a_loop { rows_of branch_within_a_loop ≡ [] }
    ensures branch_to_another_arm { rows_of (branch_out_of_an_arm 20) ≡ at_card 2 28 ∷ [] }
    ensures branch_to_the_end { rows_of (branch_out_of_an_arm 30) ≡ [] }
    ensures computed_branch_into_an_arm { rows_of computed_branch_into_an_arm ≡ at_card 2 28 ∷ [] }
{}

/// Calls of two shapes, a function of type CHARACTER that is passed, and written formats.
pub fn calls_and_formats_break_rows()
    ensures one_argument_more { rows_of (second_call (num 1 ∷ num 2 ∷ [])) ≡ at_card 2 43 ∷ [] }
    ensures text_for_a_number { rows_of (second_call (text (codes "A") ∷ [])) ≡ at_card 2 43 ∷ [] }
    ensures another_number { rows_of (second_call (num 2 ∷ [])) ≡ [] }
    ensures character_function_passed { rows_of character_function_passed ≡ at_card 3 42 ∷ [] }
    ensures strange_letter { rows_of (format_of_text (codes "(Q5)")) ≡ at_card 1 44 ∷ [] }
    ensures real_descriptor { rows_of (format_of_text (codes "(i5,f5.2)")) ≡ at_card 1 45 ∷ [] }
    ensures letter_in_a_text { rows_of (format_of_text (codes "('F',1HE,i5)")) ≡ [] }
    ensures text_without_end { rows_of (written_by (text (codes "(I5"))) ≡ at_card 1 44 ∷ [] }
    ensures format_written_out { rows_of (written_by (text (codes "(I5)"))) ≡ [] }
    ensures format_in_parentheses { rows_of (written_by (expr.Paren (text (codes "(I5)")))) ≡ at_card 1 44 ∷ [] }
{}

/// Names of two things, and two main programs.
pub fn units_break_rows()
    ensures subroutine_twice { shared_rows_of (two_units (small_subroutine (codes "s")) (small_subroutine (codes "s"))) ≡ at_card 3 51 ∷ [] }
    ensures subroutine_and_block { shared_rows_of (two_units (small_subroutine (codes "s")) with_block) ≡ at_card 4 51 ∷ [] }
    ensures block_twice { shared_rows_of (two_units with_block (record with_block { name = Some (codes "u") })) ≡ [] }
    ensures two_main_programs { shared_rows_of (two_units small_main small_main) ≡ at_card 3 52 ∷ [] }
    ensures two_subroutines { shared_rows_of (two_units (small_subroutine (codes "s")) (small_subroutine (codes "t"))) ≡ [] }
{}

/// Names to which two statements give what excludes each other, at the later of them.
pub fn names_given_twice_break_rows()
    ensures shaped_twice { rows_of shaped_twice ≡ at_card 2 22 ∷ [] }
    ensures typed_twice { rows_of typed_twice ≡ at_card 2 22 ∷ [] }
    ensures external_and_intrinsic { rows_of external_and_intrinsic ≡ at_card 2 22 ∷ [] }
    ensures common_saved { rows_of common_saved ≡ at_card 2 22 ∷ [] }
    ensures saved_and_typed { rows_of saved_and_typed ≡ [] }
    ensures constant_shaped { rows_of constant_shaped ≡ at_card 2 22 ∷ at_card 2 22 ∷ [] }
    ensures dummy_twice { rows_of dummy_twice ≡ at_card 1 22 ∷ [] }
{}
