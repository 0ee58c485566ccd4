//! The rows of Declarations that small programs break. Nothing is run here: the clauses are computed from the trees.
#![tactic(auto)]

ghost use Rattle.std.specs.Prelude.{◌∷◌, [], ◌≡◌, codes};
ghost use Rattle.fortran_rows.specs.IllFormedSources.{array_of_any_size_in_a_list, block_left_open, branch_to_no_statement, dimension_of_another_type, format_that_is_nowhere, loop_without_its_end, subscripts_too_few, sum_with_a_logical, text_to_an_integer, transfer_without_format, unit_without_its_end, variable_of_any_length, variable_without_type};
ghost use Rattle.fortran_rows.specs.OperandsSources.{arguments_too_few, no_such_intrinsic, part_of_a_constant, part_of_a_dummy, part_of_a_value, program_as_operand, remainder_over, subroutine_as_argument, subroutine_as_operand};
ghost use Rattle.fortran_rows.specs.ActsSources.{argument_of_another_type, close_in_a_transfer, descriptor_of_another_type, dimension_past_32_bits, format_that_ends_early, function_of_another_type, item_of_another_type, label_in_a_block, label_of_another_unit, part_past_its_text, record_without_value, remainder_past_32_bits, text_too_short_for_its_dummy, zero_to_a_negative_power};
ghost use Rattle.fortran_rows.specs.ControlSources.{assigned_branches, blocks_in_blocks, branches_by_number, goto_without_labels, jumps_out_of_loops, jumps_to_the_outer_loop, limits_valued_once, loops_that_share_their_end, returns_into_a_loop};
ghost use Rattle.fortran_rows.specs.ErrorSources.{end_is_no_error, files_by_their_names, items_before_an_error, items_with_step_of_zero, numbers_of_errors, record_of_an_error, stopped_without_a_text, text_in_parentheses_moved, unit_before_format};
ghost use Rattle.fortran_rows.specs.ExpressionsSources.{constants_by_name, lists_by_value, operands_of_logicals, powers_and_quotients};
ghost use Rattle.fortran_rows.specs.FormatsSources.{columns_of_a_record, fields_of_each_kind, formats_that_are_texts, lists_in_lists, reversion_to_the_last_group, texts_as_files};
ghost use Rattle.fortran_rows.specs.FurtherSources.{argument_in_parentheses, block_with_values, branch_with_a_list, format_gone_on_with, integer_with_a_letter, loops_with_one_end, matrix_of_a_dummy, record_read_back, sum_of_a_square, text_cut, text_repeated};
ghost use Rattle.fortran_rows.specs.InputSources.{ends_and_errors, fields_with_blanks, records_and_columns, sorted_names, values_by_lists};
ghost use Rattle.fortran_rows.specs.OrderSources.{dimension_of_another_entry, format_fetched_last, items_of_no_turn, label_for_a_variable, pieces_fetched_last, procedure_for_a_variable, right_side_first};
ghost use Rattle.fortran_rows.specs.ProceduresSources.{common_that_is_passed, dimensions_by_the_call, entries_with_one_result, entries_with_their_dummies, entry_of_another_type, functions_of_statements, parts_of_one_array, procedures_that_are_passed, returns_to_labels, two_names_of_one_place, values_that_are_passed};
ghost use Rattle.fortran_rows.specs.StorageSources.{arrays_over_their_file, block_named_external, common_made_longer, common_that_differs_by_unit, locals_that_stay, overlay_in_a_chain, overlay_of_a_matrix, texts_that_overlap, values_before_the_run, values_of_a_block};
ghost use Rattle.fortran_rows.specs.SubstringsSources.{array_past_the_end, element_past_the_end, part_of_five, part_that_begins_an_array, parts_that_are_one_item, right_side_before_a_function, right_side_before_a_statement_function, right_side_without_its_end};
ghost use Rattle.fortran_rows.specs.TextsSources.{entries_of_texts, functions_of_any_length, functions_of_texts, parts_of_elements, texts_compared, texts_cut_and_filled};
ghost use Rattle.fortran_rows.specs.TransferSources.{bounds_from_zero, digits_of_a_square, file_opened_twice, many_continuations, nothing_to_read, nulls_and_a_slash, reversion_and_fields, stock_report, text_continued};
ghost use Rattle.fortran_rows.specs.UnitsSources.{blanks_as_zeros, records_read_again, statuses_of_units};
ghost use Rattle.fortran_rows.specs.WorkedSources.{alternate_returns, argument_too_many, arms, array_of_a_dummy, arrays_equivalenced, assigned_branch, call_of_nothing, code_of_no_character, common_seen_twice, constant_defined, constants_and_bounds, decided_and, dimension_of_no_element, division_by_zero, dummies_that_overlap, dummy_of_another_entry, element_past_the_argument, element_past_the_last, entries_of_two_types, entries_share_a_result, function_of_any_length, function_without_result, implied_loops, least_integer, loop_look_alike, loop_that_never_turns, loop_to_the_last_integer, num, operands_from_the_left, procedure_passed, recursion, shared_terminal, sign_of_the_least, statement_function_in_another, status_in, step_of_zero, stopped, sum_printed, text_apart_from_itself, text_moved_within_itself, texts_and_a_statement_function, transfer_in_a_transfer, types_equivalenced, unit_not_connected, values_from_data, variable_changed_in_its_loop, variable_without_value, written_over};
ghost use Rattle.declaration_samples.specs.CardRows.{at_card, rows_of, rows_of_all};
ghost use Rattle.declaration_samples.specs.Strays.{array_without_elements, function_without_type, label_twice, ranges_that_cross};

/// Each of these programs breaks the rows that stand here, and no others.
pub fn ill_formed_programs_break_rows()
    ensures text_to_an_integer { rows_of text_to_an_integer ≡ at_card 1 31 ∷ [] }
    ensures sum_with_a_logical { rows_of sum_with_a_logical ≡ at_card 1 31 ∷ [] }
    ensures variable_without_type { rows_of variable_without_type ≡ at_card 1 20 ∷ at_card 1 31 ∷ [] }
    ensures branch_to_no_statement { rows_of branch_to_no_statement ≡ at_card 1 27 ∷ [] }
    ensures block_left_open { rows_of block_left_open ≡ at_card 1 30 ∷ [] }
    ensures unit_without_its_end { rows_of unit_without_its_end ≡ at_card 1 11 ∷ [] }
    ensures loop_without_its_end { rows_of loop_without_its_end ≡ at_card 1 29 ∷ [] }
    ensures subscripts_too_few { rows_of subscripts_too_few ≡ at_card 2 32 ∷ [] }
    ensures format_that_is_nowhere { rows_of format_that_is_nowhere ≡ at_card 1 27 ∷ [] }
    ensures transfer_without_format { rows_of transfer_without_format ≡ at_card 1 11 ∷ [] }
    ensures variable_of_any_length { rows_of variable_of_any_length ≡ at_card 1 39 ∷ [] }
    ensures array_of_any_size_in_a_list { rows_of array_of_any_size_in_a_list ≡ at_card 5 32 ∷ [] }
    ensures dimension_of_another_type { rows_of dimension_of_another_type ≡ at_card 5 23 ∷ [] }
{}

/// So does each of these, whose operands are none.
pub fn strange_operands_break_rows()
    ensures part_of_a_constant { rows_of part_of_a_constant ≡ at_card 3 31 ∷ [] }
    ensures part_of_a_dummy { rows_of part_of_a_dummy ≡ at_card 2 31 ∷ [] }
    ensures part_of_a_value { rows_of part_of_a_value ≡ at_card 2 31 ∷ [] }
    ensures no_such_intrinsic { rows_of no_such_intrinsic ≡ at_card 1 22 ∷ at_card 2 22 ∷ at_card 2 31 ∷ [] }
    ensures remainder_of_one { rows_of (remainder_over (num 7 ∷ [])) ≡ at_card 1 31 ∷ [] }
    ensures remainder_of_three { rows_of (remainder_over (num 7 ∷ num 4 ∷ num 2 ∷ [])) ≡ at_card 1 31 ∷ [] }
    ensures arguments_too_few { rows_of arguments_too_few ≡ at_card 2 31 ∷ [] }
    ensures subroutine_as_operand { rows_of subroutine_as_operand ≡ at_card 4 22 ∷ at_card 4 31 ∷ [] }
    ensures subroutine_as_argument { rows_of subroutine_as_argument ≡ at_card 4 22 ∷ [] }
    ensures program_as_operand { rows_of program_as_operand ≡ at_card 2 22 ∷ at_card 2 31 ∷ [] }
{}

/// So does each of these, though all but the last would be well formed.
pub fn strays_break_rows()
    ensures ranges_that_cross { rows_of ranges_that_cross ≡ at_card 3 29 ∷ [] }
    ensures label_twice { rows_of label_twice ≡ at_card 2 27 ∷ [] }
    ensures array_without_elements { rows_of array_without_elements ≡ at_card 1 24 ∷ [] }
    ensures function_without_type { rows_of function_without_type ≡ at_card 1 20 ∷ at_card 1 31 ∷ [] }
{}

/// The worked programs break no row, those whose runs meet an act among them.
pub fn worked_programs_break_none()
    ensures sum { rows_of_all (sum_printed ∷ []) ≡ [] }
    ensures loops { rows_of_all (loop_look_alike ∷ loop_that_never_turns ∷ shared_terminal ∷ implied_loops ∷ []) ≡ [] }
    ensures branches { rows_of_all (arms 1 ∷ arms 2 ∷ arms 3 ∷ decided_and ∷ assigned_branch (10 ∷ []) ∷ assigned_branch [] ∷ least_integer ∷ sign_of_the_least (num 1) ∷ []) ≡ [] }
    ensures calls { rows_of_all (operands_from_the_left ∷ dummies_that_overlap ∷ entries_share_a_result ∷ alternate_returns ∷ []) ≡ [] }
    ensures acts_of_values { rows_of_all (loop_to_the_last_integer ∷ division_by_zero ∷ variable_without_value ∷ element_past_the_last ∷ []) ≡ [] }
    ensures acts_of_control { rows_of_all (step_of_zero ∷ variable_changed_in_its_loop ∷ assigned_branch (20 ∷ []) ∷ transfer_in_a_transfer ∷ []) ≡ [] }
    ensures acts_of_calls { rows_of_all (recursion ∷ constant_defined ∷ argument_too_many ∷ function_without_result ∷ call_of_nothing ∷ dimension_of_no_element ∷ element_past_the_argument ∷ dummy_of_another_entry ∷ array_of_a_dummy 5 ∷ []) ≡ [] }
    ensures texts { rows_of_all (texts_and_a_statement_function ∷ statement_function_in_another ∷ text_apart_from_itself ∷ text_moved_within_itself ∷ code_of_no_character ∷ []) ≡ [] }
    ensures declarations { rows_of_all (values_from_data ∷ constants_and_bounds ∷ []) ≡ [] }
    ensures procedures { rows_of_all (procedure_passed ∷ function_of_any_length ∷ array_of_a_dummy 3 ∷ entries_of_two_types ∷ []) ≡ [] }
    ensures units { rows_of_all (unit_not_connected [] ∷ unit_not_connected (status_in (codes "n") ∷ []) ∷ written_over ∷ stopped ∷ []) ≡ [] }
    ensures common_seen_twice { rows_of common_seen_twice ≡ [] }
    ensures arrays_equivalenced { rows_of arrays_equivalenced ≡ [] }
    ensures types_equivalenced { rows_of (types_equivalenced (codes "l")) ≡ [] }
    ensures types_equivalenced_again { rows_of (types_equivalenced (codes "i")) ≡ [] }
{}

/// The example programs break no row.
pub fn example_programs_break_none()
    ensures storage { rows_of_all (values_before_the_run ∷ locals_that_stay ∷ []) ≡ [] }
    ensures overlay_of_a_matrix { rows_of overlay_of_a_matrix ≡ [] }
    ensures overlay_in_a_chain { rows_of overlay_in_a_chain ≡ [] }
    ensures common_that_differs_by_unit { rows_of common_that_differs_by_unit ≡ [] }
    ensures common_made_longer { rows_of common_made_longer ≡ [] }
    ensures texts_that_overlap { rows_of texts_that_overlap ≡ [] }
    ensures arrays_over_their_file { rows_of arrays_over_their_file ≡ [] }
    ensures block_named_external { rows_of block_named_external ≡ [] }
    ensures values_of_a_block { rows_of values_of_a_block ≡ [] }
    ensures control { rows_of_all (loops_that_share_their_end ∷ jumps_out_of_loops ∷ limits_valued_once ∷ branches_by_number ∷ assigned_branches ∷ goto_without_labels ∷ blocks_in_blocks ∷ jumps_to_the_outer_loop ∷ returns_into_a_loop ∷ []) ≡ [] }
    ensures procedures { rows_of_all (two_names_of_one_place ∷ parts_of_one_array ∷ entries_with_one_result ∷ entry_of_another_type ∷ entries_with_their_dummies ∷ returns_to_labels ∷ functions_of_statements ∷ procedures_that_are_passed ∷ dimensions_by_the_call ∷ values_that_are_passed ∷ []) ≡ [] }
    ensures common_that_is_passed { rows_of common_that_is_passed ≡ [] }
    ensures texts { rows_of_all (functions_of_any_length ∷ texts_cut_and_filled ∷ texts_compared ∷ functions_of_texts ∷ parts_of_elements ∷ entries_of_texts ∷ []) ≡ [] }
    ensures formats { rows_of_all (reversion_to_the_last_group ∷ lists_in_lists ∷ fields_of_each_kind ∷ columns_of_a_record ∷ formats_that_are_texts ∷ texts_as_files ∷ []) ≡ [] }
    ensures input { rows_of_all (fields_with_blanks ∷ records_and_columns ∷ values_by_lists ∷ ends_and_errors ∷ sorted_names ∷ []) ≡ [] }
    ensures units { rows_of_all (records_read_again ∷ statuses_of_units ∷ blanks_as_zeros ∷ []) ≡ [] }
    ensures expressions { rows_of_all (powers_and_quotients ∷ constants_by_name ∷ operands_of_logicals ∷ lists_by_value ∷ []) ≡ [] }
{}

/// The further programs break no row, those whose runs meet an act among them.
pub fn further_programs_break_none()
    ensures transfers { rows_of_all (text_continued ∷ many_continuations ∷ reversion_and_fields ∷ nulls_and_a_slash ∷ digits_of_a_square ∷ nothing_to_read ∷ bounds_from_zero ∷ file_opened_twice ∷ []) ≡ [] }
    ensures stock_report { rows_of stock_report ≡ [] }
    ensures further { rows_of_all (branch_with_a_list ∷ loops_with_one_end ∷ matrix_of_a_dummy ∷ argument_in_parentheses ∷ text_cut ∷ text_repeated ∷ sum_of_a_square ∷ format_gone_on_with ∷ integer_with_a_letter ∷ record_read_back ∷ []) ≡ [] }
    ensures block_with_values { rows_of block_with_values ≡ [] }
    ensures order { rows_of_all (right_side_first ∷ pieces_fetched_last ∷ format_fetched_last ∷ items_of_no_turn ∷ dimension_of_another_entry ∷ label_for_a_variable ∷ procedure_for_a_variable ∷ []) ≡ [] }
    ensures errors { rows_of_all (numbers_of_errors ∷ items_before_an_error ∷ record_of_an_error ∷ files_by_their_names ∷ items_with_step_of_zero ∷ unit_before_format ∷ end_is_no_error ∷ stopped_without_a_text ∷ text_in_parentheses_moved ∷ []) ≡ [] }
    ensures acts { rows_of_all (descriptor_of_another_type ∷ item_of_another_type ∷ format_that_ends_early ∷ record_without_value ∷ remainder_past_32_bits ∷ zero_to_a_negative_power ∷ part_past_its_text ∷ label_in_a_block ∷ label_of_another_unit ∷ text_too_short_for_its_dummy ∷ argument_of_another_type ∷ function_of_another_type ∷ close_in_a_transfer ∷ dimension_past_32_bits ∷ []) ≡ [] }
{}

/// The programs over substrings break no row, those whose runs meet an act among them.
pub fn programs_of_substrings_break_none()
    ensures function { rows_of right_side_before_a_function ≡ [] }
    ensures right_sides { rows_of_all (right_side_before_a_statement_function ∷ right_side_without_its_end ∷ []) ≡ [] }
    ensures passed { rows_of_all (part_that_begins_an_array ∷ element_past_the_end ∷ array_past_the_end ∷ parts_that_are_one_item ∷ []) ≡ [] }
    ensures places { rows_of_all (part_of_five 9 10 ∷ part_of_five 9 2 ∷ part_of_five 0 9 ∷ part_of_five 3 9 ∷ part_of_five 3 2 ∷ []) ≡ [] }
{}
