//! What is proved of well-typed expressions and of well-formed units, and which sets are well formed, each as the contract of a call that does nothing.
#![tactic(auto)]

ghost use Rattle.std.specs.Prelude.{◌∷◌, [], codes};
ghost use Rattle.fortran_checks.specs.f_tree.Checks.{EachIsWellFormed, IsIllFormed};
ghost use Rattle.fortran_checks.specs.f_tree.Meaning.{units_of};
ghost use Rattle.fortran_checks.specs.f_tree.Runs.{no_options};
ghost use Rattle.fortran_checks.specs.f_tree.WellFormed.{AreWellFormed};
ghost use Rattle.fortran_rows.specs.ActsSources.{argument_of_another_type, close_in_a_transfer, descriptor_of_another_type, dimension_past_32_bits, format_that_ends_early, function_of_another_type, item_of_another_type, label_in_a_block, label_of_another_unit, part_past_its_text, record_without_value, remainder_past_32_bits, text_too_short_for_its_dummy, zero_to_a_negative_power};
ghost use Rattle.fortran_rows.specs.BitsSources.{bits_by_position, bits_by_value, character_in_a_number, character_in_a_number_setting, elements_longer_than_the_actual, functions_of_bits, length_of_a_sum_of_texts, longer_elements_past_the_actual, numbers_that_overlap, numbers_that_overlap_setting, part_of_an_element};
ghost use Rattle.fortran_rows.specs.ControlSources.{assigned_branches, blocks_in_blocks, branches_by_number, goto_without_labels, jumps_out_of_loops, jumps_to_the_outer_loop, limits_valued_once, loops_that_share_their_end, returns_into_a_loop};
ghost use Rattle.fortran_rows.specs.ErrorSources.{end_is_no_error, files_by_their_names, items_before_an_error, items_with_step_of_zero, numbers_of_errors, record_of_an_error, stopped_without_a_text, text_in_parentheses_moved, unit_before_format};
ghost use Rattle.fortran_rows.specs.ExpressionsSources.{constants_by_name, lists_by_value, operands_of_logicals, powers_and_quotients};
ghost use Rattle.fortran_rows.specs.FormatsSources.{columns_of_a_record, fields_of_each_kind, formats_that_are_texts, lists_in_lists, reversion_to_the_last_group, texts_as_files};
ghost use Rattle.fortran_rows.specs.FurtherSources.{argument_in_parentheses, block_with_values, block_with_values_setting, branch_with_a_list, format_gone_on_with, integer_with_a_letter, loops_with_one_end, matrix_of_a_dummy, record_read_back, sum_of_a_square, text_cut, text_repeated};
ghost use Rattle.fortran_rows.specs.IllFormedSources.{array_of_any_size_in_a_list, bit_of_a_logical, block_left_open, branch_to_no_statement, dimension_of_another_type, format_that_is_nowhere, loop_without_its_end, subscripts_too_few, sum_with_a_logical, text_to_an_integer, transfer_without_format, unit_without_its_end, variable_of_any_length, variable_without_type, while_over_a_number, while_without_its_end};
ghost use Rattle.fortran_rows.specs.InputSources.{ends_and_errors, fields_with_blanks, records_and_columns, sorted_names, values_by_lists};
ghost use Rattle.fortran_rows.specs.LongSources.{sum_of_a_thousand};
ghost use Rattle.fortran_rows.specs.LoopsSources.{counted_while, every_name_declared, loops_by_end_do, while_left_by_a_branch, while_that_shares_its_end, while_with_a_function, while_with_label, while_without_label};
ghost use Rattle.fortran_rows.specs.NestsSources.{loop_without_its_end_do};
ghost use Rattle.fortran_rows.specs.OrderSources.{dimension_of_another_entry, format_fetched_last, items_of_no_turn, label_for_a_variable, pieces_fetched_last, procedure_for_a_variable, right_side_first};
ghost use Rattle.fortran_rows.specs.OperandsSources.{arguments_too_few, no_such_intrinsic, part_of_a_constant, part_of_a_dummy, part_of_a_value, program_as_operand, remainder_over, subroutine_as_argument, subroutine_as_operand};
ghost use Rattle.fortran_rows.specs.ProceduresSources.{common_that_is_passed, common_that_is_passed_setting, dimensions_by_the_call, entries_with_one_result, entries_with_their_dummies, entry_of_another_type, functions_of_statements, parts_of_one_array, procedures_that_are_passed, returns_to_labels, two_names_of_one_place, values_that_are_passed};
ghost use Rattle.fortran_rows.specs.RangeSources.{element_behind_an_entry, element_past_three, first_subscript_past_two, overflow_before_an_element, part_from_zero};
ghost use Rattle.fortran_rows.specs.StorageSources.{arrays_over_their_file, arrays_over_their_file_setting, block_named_external, block_named_external_setting, common_made_longer, common_made_longer_setting, common_that_differs_by_unit, common_that_differs_by_unit_setting, locals_that_stay, overlay_in_a_chain, overlay_in_a_chain_setting, overlay_of_a_matrix, overlay_of_a_matrix_setting, texts_that_overlap, texts_that_overlap_setting, values_before_the_run, values_of_a_block, values_of_a_block_setting};
ghost use Rattle.fortran_rows.specs.SubstringsSources.{array_past_the_end, element_past_the_end, part_of_five, part_that_begins_an_array, parts_that_are_one_item, right_side_before_a_function, right_side_before_a_function_setting, right_side_before_a_statement_function, right_side_without_its_end};
ghost use Rattle.fortran_rows.specs.TextsSources.{entries_of_texts, functions_of_any_length, functions_of_texts, parts_of_elements, texts_compared, texts_cut_and_filled};
ghost use Rattle.fortran_rows.specs.TransferSources.{bounds_from_zero, digits_of_a_square, file_opened_twice, many_continuations, nothing_to_read, nulls_and_a_slash, reversion_and_fields, stock_report, stock_report_setting, text_continued};
ghost use Rattle.fortran_rows.specs.UnitsSources.{blanks_as_zeros, records_read_again, statuses_of_units};
ghost use Rattle.fortran_rows.specs.WorkedSources.{alternate_returns, argument_too_many, arms, array_of_a_dummy, arrays_equivalenced, arrays_setting, assigned_branch, call_of_nothing, code_of_no_character, common_seen_twice, common_setting, constant_defined, constants_and_bounds, decided_and, dimension_of_no_element, division_by_zero, dummies_that_overlap, dummy_of_another_entry, element_past_the_argument, element_past_the_last, entries_of_two_types, entries_share_a_result, function_of_any_length, function_without_result, implied_loops, least_integer, loop_look_alike, loop_that_never_turns, loop_to_the_last_integer, num, operands_from_the_left, procedure_passed, recursion, shared_terminal, sign_of_the_least, statement_function_in_another, status_in, step_of_zero, stopped, sum_printed, text_apart_from_itself, text_moved_within_itself, texts_and_a_statement_function, transfer_in_a_transfer, types_equivalenced, types_setting, unit_not_connected, values_from_data, variable_changed_in_its_loop, variable_without_value, written_over};

/// The sets of the worked runs are well formed, those whose runs meet an act among them.
pub fn worked_sets_are_well_formed()
    ensures sum { EachIsWellFormed (sum_printed ∷ []) }
    ensures loops { EachIsWellFormed (loop_look_alike ∷ loop_that_never_turns ∷ shared_terminal ∷ implied_loops ∷ []) }
    ensures branches { EachIsWellFormed (arms 1 ∷ arms 2 ∷ arms 3 ∷ decided_and ∷ assigned_branch (10 ∷ []) ∷ assigned_branch [] ∷ least_integer ∷ sign_of_the_least (num 1) ∷ []) }
    ensures calls { EachIsWellFormed (operands_from_the_left ∷ dummies_that_overlap ∷ entries_share_a_result ∷ alternate_returns ∷ []) }
    ensures acts_of_values { EachIsWellFormed (loop_to_the_last_integer ∷ division_by_zero ∷ variable_without_value ∷ element_past_the_last ∷ []) }
    ensures acts_of_control { EachIsWellFormed (step_of_zero ∷ variable_changed_in_its_loop ∷ assigned_branch (20 ∷ []) ∷ transfer_in_a_transfer ∷ []) }
    ensures acts_of_calls { EachIsWellFormed (recursion ∷ constant_defined ∷ argument_too_many ∷ function_without_result ∷ call_of_nothing ∷ dimension_of_no_element ∷ element_past_the_argument ∷ dummy_of_another_entry ∷ array_of_a_dummy 5 ∷ []) }
    ensures texts { EachIsWellFormed (texts_and_a_statement_function ∷ statement_function_in_another ∷ text_apart_from_itself ∷ text_moved_within_itself ∷ code_of_no_character ∷ []) }
    ensures declarations { EachIsWellFormed (values_from_data ∷ constants_and_bounds ∷ []) }
    ensures procedures { EachIsWellFormed (procedure_passed ∷ function_of_any_length ∷ array_of_a_dummy 3 ∷ entries_of_two_types ∷ []) }
    ensures units { EachIsWellFormed (unit_not_connected [] ∷ unit_not_connected (status_in (codes "n") ∷ []) ∷ written_over ∷ stopped ∷ []) }
    ensures common_seen_twice { AreWellFormed common_setting (units_of no_options common_seen_twice) }
    ensures arrays_equivalenced { AreWellFormed arrays_setting (units_of no_options arrays_equivalenced) }
    ensures types_equivalenced { AreWellFormed types_setting (units_of no_options (types_equivalenced (codes "l"))) }
    ensures types_equivalenced_again { AreWellFormed types_setting (units_of no_options (types_equivalenced (codes "i"))) }
{}

/// The sets of the example programs are well formed.
pub fn example_sets_are_well_formed()
    ensures storage { EachIsWellFormed (values_before_the_run ∷ locals_that_stay ∷ []) }
    ensures overlay_of_a_matrix { AreWellFormed overlay_of_a_matrix_setting (units_of no_options overlay_of_a_matrix) }
    ensures overlay_in_a_chain { AreWellFormed overlay_in_a_chain_setting (units_of no_options overlay_in_a_chain) }
    ensures common_that_differs_by_unit { AreWellFormed common_that_differs_by_unit_setting (units_of no_options common_that_differs_by_unit) }
    ensures common_made_longer { AreWellFormed common_made_longer_setting (units_of no_options common_made_longer) }
    ensures texts_that_overlap { AreWellFormed texts_that_overlap_setting (units_of no_options texts_that_overlap) }
    ensures arrays_over_their_file { AreWellFormed arrays_over_their_file_setting (units_of no_options arrays_over_their_file) }
    ensures block_named_external { AreWellFormed block_named_external_setting (units_of no_options block_named_external) }
    ensures values_of_a_block { AreWellFormed values_of_a_block_setting (units_of no_options values_of_a_block) }
    ensures control { EachIsWellFormed (loops_that_share_their_end ∷ jumps_out_of_loops ∷ limits_valued_once ∷ branches_by_number ∷ assigned_branches ∷ goto_without_labels ∷ blocks_in_blocks ∷ jumps_to_the_outer_loop ∷ returns_into_a_loop ∷ []) }
    ensures procedures { EachIsWellFormed (two_names_of_one_place ∷ parts_of_one_array ∷ entries_with_one_result ∷ entry_of_another_type ∷ entries_with_their_dummies ∷ returns_to_labels ∷ functions_of_statements ∷ procedures_that_are_passed ∷ dimensions_by_the_call ∷ values_that_are_passed ∷ []) }
    ensures common_that_is_passed { AreWellFormed common_that_is_passed_setting (units_of no_options common_that_is_passed) }
    ensures texts { EachIsWellFormed (functions_of_any_length ∷ texts_cut_and_filled ∷ texts_compared ∷ functions_of_texts ∷ parts_of_elements ∷ entries_of_texts ∷ []) }
    ensures formats { EachIsWellFormed (reversion_to_the_last_group ∷ lists_in_lists ∷ fields_of_each_kind ∷ columns_of_a_record ∷ formats_that_are_texts ∷ texts_as_files ∷ []) }
    ensures input { EachIsWellFormed (fields_with_blanks ∷ records_and_columns ∷ values_by_lists ∷ ends_and_errors ∷ sorted_names ∷ []) }
    ensures units { EachIsWellFormed (records_read_again ∷ statuses_of_units ∷ blanks_as_zeros ∷ []) }
    ensures expressions { EachIsWellFormed (powers_and_quotients ∷ constants_by_name ∷ operands_of_logicals ∷ lists_by_value ∷ []) }
{}

/// The sets of the further runs are well formed, those whose runs meet an act among them.
pub fn further_sets_are_well_formed()
    ensures transfers { EachIsWellFormed (text_continued ∷ many_continuations ∷ reversion_and_fields ∷ nulls_and_a_slash ∷ digits_of_a_square ∷ nothing_to_read ∷ bounds_from_zero ∷ file_opened_twice ∷ []) }
    ensures stock_report { AreWellFormed stock_report_setting (units_of no_options stock_report) }
    ensures further { EachIsWellFormed (branch_with_a_list ∷ loops_with_one_end ∷ matrix_of_a_dummy ∷ argument_in_parentheses ∷ text_cut ∷ text_repeated ∷ sum_of_a_square ∷ format_gone_on_with ∷ integer_with_a_letter ∷ record_read_back ∷ []) }
    ensures block_with_values { AreWellFormed block_with_values_setting (units_of no_options block_with_values) }
    ensures long { EachIsWellFormed (sum_of_a_thousand ∷ []) }
    ensures order { EachIsWellFormed (right_side_first ∷ pieces_fetched_last ∷ format_fetched_last ∷ items_of_no_turn ∷ dimension_of_another_entry ∷ label_for_a_variable ∷ procedure_for_a_variable ∷ []) }
    ensures errors { EachIsWellFormed (numbers_of_errors ∷ items_before_an_error ∷ record_of_an_error ∷ files_by_their_names ∷ items_with_step_of_zero ∷ unit_before_format ∷ end_is_no_error ∷ stopped_without_a_text ∷ text_in_parentheses_moved ∷ []) }
    ensures acts { EachIsWellFormed (descriptor_of_another_type ∷ item_of_another_type ∷ format_that_ends_early ∷ record_without_value ∷ remainder_past_32_bits ∷ zero_to_a_negative_power ∷ part_past_its_text ∷ label_in_a_block ∷ label_of_another_unit ∷ text_too_short_for_its_dummy ∷ argument_of_another_type ∷ function_of_another_type ∷ close_in_a_transfer ∷ dimension_past_32_bits ∷ []) }
{}

/// The sets of the runs over substrings are well formed, those whose runs meet an act among them.
pub fn sets_of_substrings_are_well_formed()
    ensures function { AreWellFormed right_side_before_a_function_setting (units_of no_options right_side_before_a_function) }
    ensures right_sides { EachIsWellFormed (right_side_before_a_statement_function ∷ right_side_without_its_end ∷ []) }
    ensures passed { EachIsWellFormed (part_that_begins_an_array ∷ element_past_the_end ∷ array_past_the_end ∷ parts_that_are_one_item ∷ []) }
    ensures places { EachIsWellFormed (part_of_five 9 10 ∷ part_of_five 9 2 ∷ part_of_five 0 9 ∷ part_of_five 3 9 ∷ part_of_five 3 2 ∷ []) }
{}

/// The sets of the runs over DO WHILE, END DO, IMPLICIT NONE and bit functions, and of those whose first act is a place out of bounds, are well
/// formed.
pub fn sets_of_loops_and_bits_are_well_formed()
    ensures loops { EachIsWellFormed (counted_while ∷ while_without_label ∷ while_with_label ∷ while_with_a_function ∷ while_left_by_a_branch ∷ while_that_shares_its_end ∷ loops_by_end_do ∷ every_name_declared ∷ []) }
    ensures bits { EachIsWellFormed (bits_by_value ∷ bits_by_position ∷ functions_of_bits ∷ []) }
    ensures lengths { EachIsWellFormed (length_of_a_sum_of_texts ∷ elements_longer_than_the_actual ∷ longer_elements_past_the_actual ∷ []) }
    ensures character_within { AreWellFormed character_in_a_number_setting (units_of no_options character_in_a_number) }
    ensures half_of_another { AreWellFormed numbers_that_overlap_setting (units_of no_options (numbers_that_overlap (codes "i"))) }
    ensures places { EachIsWellFormed (part_of_an_element (num 6) ∷ element_past_three ∷ first_subscript_past_two ∷ overflow_before_an_element ∷ part_from_zero ∷ element_behind_an_entry ∷ []) }
{}

/// A set that is ill formed by one rule is found to be so by computing; its run does come to a form without meaning, and
/// so it is not well formed.
pub fn ill_formed_sets_are_found()
    ensures text_to_an_integer_is { IsIllFormed text_to_an_integer 0 }
    ensures sum_with_a_logical_is { IsIllFormed sum_with_a_logical 0 }
    ensures variable_without_type_is { IsIllFormed variable_without_type 0 }
    ensures branch_to_no_statement_is { IsIllFormed branch_to_no_statement 0 }
    ensures block_left_open_is { IsIllFormed block_left_open 0 }
    ensures unit_without_its_end_is { IsIllFormed unit_without_its_end 0 }
    ensures loop_without_its_end_is { IsIllFormed loop_without_its_end 0 }
    ensures subscripts_too_few_is { IsIllFormed subscripts_too_few 0 }
    ensures format_that_is_nowhere_is { IsIllFormed format_that_is_nowhere 0 }
    ensures transfer_without_format_is { IsIllFormed transfer_without_format 0 }
    ensures variable_of_any_length_is { IsIllFormed variable_of_any_length 0 }
    ensures array_of_any_size_in_a_list_is { IsIllFormed array_of_any_size_in_a_list 2 }
    ensures dimension_of_another_type_is { IsIllFormed dimension_of_another_type 0 }
{}

/// A DO or a DO WHILE without its END DO, a DO WHILE over a number, and a bit function over a logical are found to be ill formed too.
pub fn ill_formed_loops_are_found()
    ensures loop_without_its_end_do_is { IsIllFormed loop_without_its_end_do 0 }
    ensures while_without_its_end_is { IsIllFormed while_without_its_end 0 }
    ensures while_over_a_number_is { IsIllFormed while_over_a_number 0 }
    ensures bit_of_a_logical_is { IsIllFormed bit_of_a_logical 0 }
{}

/// What is no operand: a substring of a constant, of a dummy of a statement function or of the value of a function; a reference to an intrinsic function
/// that is none, or with a wrong number of arguments, and to a statement function with too few; the name of the unit itself. Sets with one are not well formed.
pub fn what_is_no_operand_is_found()
    ensures part_of_a_constant_is { IsIllFormed part_of_a_constant 1 }
    ensures part_of_a_dummy_is { IsIllFormed part_of_a_dummy 1 }
    ensures part_of_a_value_is { IsIllFormed part_of_a_value 4 }
    ensures no_such_intrinsic_is { IsIllFormed no_such_intrinsic 1 }
    ensures intrinsic_over_one_is { IsIllFormed (remainder_over (num 7 ∷ [])) 1 }
    ensures intrinsic_over_three_is { IsIllFormed (remainder_over (num 7 ∷ num 4 ∷ num 2 ∷ [])) 1 }
    ensures arguments_too_few_is { IsIllFormed arguments_too_few 1 }
    ensures subroutine_as_operand_is { IsIllFormed subroutine_as_operand 2 }
    ensures subroutine_as_argument_is { IsIllFormed subroutine_as_argument 1 }
    ensures program_as_operand_is { IsIllFormed program_as_operand 1 }
{}
