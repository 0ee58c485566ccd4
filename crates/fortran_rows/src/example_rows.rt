//! Runs of small programs, each as the contract of a call that does nothing: the records are computed from the
//! definition of what a set of files means. The programs in examples/fortran were run by another processor too.
#![tactic(auto)]

ghost use Rattle.std.specs.Prelude.{◌∷◌, [], IsTrue, codes, negsuc, pos};
ghost use Rattle.fortran_checks.specs.f_tree.World.{Io, Plain};
ghost use Rattle.fortran_checks.specs.f_tree.Meaning.{units_of};
ghost use Rattle.fortran_checks.specs.f_tree.Setting.{IsSetting};
ghost use Rattle.fortran_checks.specs.f_tree.Values.{BadAssignedLabel, BadDimension, Disagreement, FormatEndsEarly, NoValue, OutOfBounds, Overflow, TransferInTransfer, WrongDescriptor, ZeroDivide};
ghost use Rattle.fortran_checks.specs.f_tree.Runs.{ApartIsASetting, Ends, all_share_nothing, MeetsApart, no_options, setting_apart, units_with};
ghost use Rattle.fortran_rows.specs.ApartSources.{sources_apart};
ghost use Rattle.fortran_rows.specs.ActsSources.{argument_of_another_type, close_in_a_transfer, descriptor_of_another_type, dimension_past_32_bits, format_that_ends_early, function_of_another_type, item_of_another_type, label_in_a_block, part_past_its_text, record_without_value, remainder_past_32_bits, text_too_short_for_its_dummy, zero_to_a_negative_power};
ghost use Rattle.fortran_rows.specs.BitsSources.{character_in_a_number, character_in_a_number_setting, numbers_that_overlap, numbers_that_overlap_setting};
ghost use Rattle.fortran_rows.specs.StorageSources.{arrays_over_their_file, arrays_over_their_file_setting, block_named_external, block_named_external_setting, common_made_longer, common_made_longer_setting, common_that_differs_by_unit, common_that_differs_by_unit_setting, locals_that_stay, overlay_in_a_chain, overlay_in_a_chain_setting, overlay_of_a_matrix, overlay_of_a_matrix_setting, texts_that_overlap, texts_that_overlap_setting, values_before_the_run, values_of_a_block, values_of_a_block_setting};
ghost use Rattle.fortran_rows.specs.ControlSources.{assigned_branches, blocks_in_blocks, branches_by_number, goto_without_labels, jumps_out_of_loops, jumps_to_the_outer_loop, loops_that_share_their_end, returns_into_a_loop};
ghost use Rattle.fortran_rows.specs.ProceduresSources.{common_that_is_passed, common_that_is_passed_setting, dimensions_by_the_call, entries_with_one_result, entry_of_another_type, entries_with_their_dummies, functions_of_statements, parts_of_one_array, procedures_that_are_passed, returns_to_labels, two_names_of_one_place, values_that_are_passed};
ghost use Rattle.fortran_rows.specs.SubstringsSources.{part_that_begins_an_array, parts_that_are_one_item};
ghost use Rattle.fortran_rows.specs.TextsSources.{entries_of_texts, functions_of_any_length, functions_of_texts, parts_of_elements, texts_compared, texts_cut_and_filled};
ghost use Rattle.fortran_rows.specs.FormatsSources.{columns_of_a_record, fields_of_each_kind, formats_that_are_texts, lists_in_lists, reversion_to_the_last_group, texts_as_files};
ghost use Rattle.fortran_rows.specs.InputSources.{ends_and_errors, fields_with_blanks, records_and_columns, sorted_names, values_by_lists};
ghost use Rattle.fortran_rows.specs.UnitsSources.{blanks_as_zeros, records_read_again, statuses_of_units};
ghost use Rattle.fortran_rows.specs.ExpressionsSources.{constants_by_name, lists_by_value, operands_of_logicals, powers_and_quotients};
ghost use Rattle.fortran_rows.specs.TransferSources.{bounds_from_zero, digits_of_a_square, file_opened_twice, many_continuations, nothing_to_read, nulls_and_a_slash, reversion_and_fields, stock_report, stock_report_setting, text_continued};
ghost use Rattle.fortran_rows.specs.WorkedSources.{arrays_equivalenced, arrays_setting, common_seen_twice, common_setting, types_equivalenced, types_setting};
ghost use Rattle.fortran_rows.specs.FurtherSources.{block_with_values, block_with_values_setting, branch_with_a_list, format_gone_on_with, integer_with_a_letter, loops_with_one_end, matrix_of_a_dummy, record_read_back, sum_of_a_square, text_cut, text_repeated};

/// Programs over COMMON, EQUIVALENCE and DATA end with the records that another processor writes for them.
pub fn storage_programs()
    ensures overlay_of_a_matrix_ends { Ends no_options overlay_of_a_matrix overlay_of_a_matrix_setting (units_with [] []) Plain (codes "   1   4   9  16  25  36" ∷ codes "   1   9  25   4  16  36" ∷ []) }
    ensures overlay_in_a_chain_ends { Ends no_options overlay_in_a_chain overlay_in_a_chain_setting (units_with [] []) Plain (codes "   2   7   4   7   4" ∷ []) }
    ensures common_that_differs_by_unit_ends { Ends no_options common_that_differs_by_unit common_that_differs_by_unit_setting (units_with [] []) Plain (codes "  1 14  0  4  5" ∷ []) }
    ensures common_made_longer_ends { Ends no_options common_made_longer common_made_longer_setting (units_with [] []) Plain (codes "  1  2  3" ∷ []) }
    ensures texts_that_overlap_ends { Ends no_options texts_that_overlap texts_that_overlap_setting (units_with [] []) Plain (codes "PQbcQbcxyz" ∷ []) }
    ensures arrays_over_their_file_ends { Ends no_options arrays_over_their_file arrays_over_their_file_setting (units_with [] []) Plain (codes "ababab" ∷ codes "ghghgh" ∷ codes "uvwxuv" ∷ []) }
    ensures values_of_a_block_ends { Ends no_options values_of_a_block values_of_a_block_setting (units_with [] []) Plain (codes "  4  4  1  9  9 ab " ∷ []) }
    ensures block_named_external_ends { Ends no_options block_named_external block_named_external_setting (units_with [] []) Plain (codes "  7" ∷ []) }
    ensures values_before_the_run_ends { Ends no_options values_before_the_run (setting_apart (units_of no_options values_before_the_run)) (units_with [] []) Plain (codes "  1  3  5  2  4  6 -1 -1 -1 -1" ∷ codes "xyq vw T" ∷ []) }
    ensures locals_that_stay_ends { Ends no_options locals_that_stay (setting_apart (units_of no_options locals_that_stay)) (units_with [] []) Plain (codes " 101" ∷ codes " 103" ∷ codes " 106" ∷ []) }
{}

/// Programs of loops, branches and blocks end with the records that another processor writes for them.
pub fn control_programs()
    ensures loops_that_share_their_end_ends { Ends no_options loops_that_share_their_end (setting_apart (units_of no_options loops_that_share_their_end)) (units_with [] []) Plain (codes "    4    4  132" ∷ []) }
    ensures jumps_out_of_loops_ends { Ends no_options jumps_out_of_loops (setting_apart (units_of no_options jumps_out_of_loops)) (units_with [] []) Plain (codes "  3  4" ∷ codes "    5  703" ∷ []) }
    ensures branches_by_number_ends { Ends no_options branches_by_number (setting_apart (units_of no_options branches_by_number)) (units_with [] []) Plain (codes "  0  0 -1" ∷ codes "  1  1  0" ∷ codes "  2  2  1" ∷ codes "  3  3  1" ∷ codes "  4  0 -1" ∷ []) }
    ensures assigned_branches_ends { Ends no_options assigned_branches (setting_apart (units_of no_options assigned_branches)) (units_with [] []) Plain (codes "  20" ∷ []) }
    ensures goto_without_labels_ends { Ends no_options goto_without_labels (setting_apart (units_of no_options goto_without_labels)) (units_with [] []) Plain (codes "   1   1" ∷ codes "   2   2" ∷ codes "   3  -3" ∷ codes "   4  -4" ∷ []) }
    ensures blocks_in_blocks_ends { Ends no_options blocks_in_blocks (setting_apart (units_of no_options blocks_in_blocks)) (units_with [] []) Plain (codes "  1  1" ∷ codes "  2  2" ∷ codes "  3  3" ∷ codes "  4  9" ∷ []) }
    ensures jumps_to_the_outer_loop_ends { Ends no_options jumps_to_the_outer_loop (setting_apart (units_of no_options jumps_to_the_outer_loop)) (units_with [] []) Plain (codes "   4   3  63" ∷ []) }
    ensures returns_into_a_loop_ends { Ends no_options returns_into_a_loop (setting_apart (units_of no_options returns_into_a_loop)) (units_with [] []) Plain (codes "     4 12011" ∷ codes "     4 12011" ∷ []) }
{}

/// Programs of calls, arguments, entries and returns end with the records that another processor writes for them.
pub fn procedures_programs()
    ensures two_names_of_one_place_ends { Ends no_options two_names_of_one_place (setting_apart (units_of no_options two_names_of_one_place)) (units_with [] []) Plain (codes " 40" ∷ []) }
    ensures parts_of_one_array_ends { Ends no_options parts_of_one_array (setting_apart (units_of no_options parts_of_one_array)) (units_with [] []) Plain (codes "    1   12  123 123412345    6" ∷ []) }
    ensures common_that_is_passed_ends { Ends no_options common_that_is_passed common_that_is_passed_setting (units_with [] []) Plain (codes "  23" ∷ []) }
    ensures entries_with_one_result_ends { Ends no_options entries_with_one_result (setting_apart (units_of no_options entries_with_one_result)) (units_with [] []) Plain (codes " 104 108 104   1" ∷ []) }
    ensures entry_of_another_type_ends { Ends no_options entry_of_another_type (setting_apart (units_of no_options entry_of_another_type)) (units_with [] []) Plain (codes "   4 F" ∷ []) }
    ensures entries_with_their_dummies_ends { Ends no_options entries_with_their_dummies (setting_apart (units_of no_options entries_with_their_dummies)) (units_with [] []) Plain (codes "   8  12" ∷ []) }
    ensures returns_to_labels_ends { Ends no_options returns_to_labels (setting_apart (units_of no_options returns_to_labels)) (units_with [] []) Plain (codes "  0  0" ∷ codes "  1  1" ∷ codes "  2  2" ∷ codes "  3  0" ∷ []) }
    ensures functions_of_statements_ends { Ends no_options functions_of_statements (setting_apart (units_of no_options functions_of_statements)) (units_with [] []) Plain (codes "  17   9   7" ∷ []) }
    ensures procedures_that_are_passed_ends { Ends no_options procedures_that_are_passed (setting_apart (units_of no_options procedures_that_are_passed)) (units_with [] []) Plain (codes "  12  50" ∷ []) }
    ensures dimensions_by_the_call_ends { Ends no_options dimensions_by_the_call (setting_apart (units_of no_options dimensions_by_the_call)) (units_with [] []) Plain (codes "  1  3  5  2  4  6" ∷ codes "  1  4  2  5  3  6" ∷ codes "  1  6" ∷ []) }
    ensures values_that_are_passed_ends { Ends no_options values_that_are_passed (setting_apart (units_of no_options values_that_are_passed)) (units_with [] []) Plain (codes "  1" ∷ codes "  5" ∷ codes "  6" ∷ codes "  5" ∷ []) }
{}

/// Programs over characters end with the records that another processor writes for them.
pub fn texts_programs()
    ensures functions_of_any_length_ends { Ends no_options functions_of_any_length (setting_apart (units_of no_options functions_of_any_length)) (units_with [] []) Plain (codes "QQ!xyz+." ∷ []) }
    ensures texts_cut_and_filled_ends { Ends no_options texts_cut_and_filled (setting_apart (units_of no_options texts_cut_and_filled)) (units_with [] []) Plain (codes "ABCABC!  |" ∷ codes "yBCAxy!0 |" ∷ []) }
    ensures texts_compared_ends { Ends no_options texts_compared (setting_apart (units_of no_options texts_compared)) (units_with [] []) Plain (codes " T T T T F F" ∷ []) }
    ensures functions_of_texts_ends { Ends no_options functions_of_texts (setting_apart (units_of no_options functions_of_texts)) (units_with [] []) Plain (codes "   6   3   0" ∷ codes "  72   4 200" ∷ codes "Hi" ∷ []) }
    ensures parts_of_elements_ends { Ends no_options parts_of_elements (setting_apart (units_of no_options parts_of_elements)) (units_with [] []) Plain (codes " efcd eijh ijef" ∷ codes " ? e  e? h ijef" ∷ []) }
    ensures entries_of_texts_ends { Ends no_options entries_of_texts (setting_apart (units_of no_options entries_of_texts)) (units_with [] []) Plain (codes "xx a-c|" ∷ []) }
{}

/// Programs that write by formats end with the records that another processor writes for them.
pub fn formats_programs()
    ensures reversion_to_the_last_group_ends { Ends no_options reversion_to_the_last_group (setting_apart (units_of no_options reversion_to_the_last_group)) (units_with [] []) Plain (codes "  1 02 03" ∷ [] ∷ codes " 04 05" ∷ [] ∷ codes " 06 07" ∷ [] ∷ codes " 08 09" ∷ [] ∷ codes "a 1b 2c 3b 4c 5" ∷ codes "b 6c 7b" ∷ []) }
    ensures lists_in_lists_ends { Ends no_options lists_in_lists (setting_apart (units_of no_options lists_in_lists)) (units_with (codes " 1 2 3" ∷ codes "-4 5 6" ∷ []) []) Plain (codes "  1=  1  2  3" ∷ codes "  2=  2  4  6" ∷ codes "  3  6" ∷ codes "  1 -4" ∷ codes "  5" ∷ []) }
    ensures fields_of_each_kind_ends { Ends no_options fields_of_each_kind (setting_apart (units_of no_options fields_of_each_kind)) (units_with [] []) Plain (codes "  7 -7***     005T   F" ∷ codes "ABC  ABCABABCDE" ∷ codes "  +5   5  -5 +0" ∷ []) }
    ensures columns_of_a_record_ends { Ends no_options columns_of_a_record (setting_apart (units_of no_options columns_of_a_record)) (units_with [] []) Plain (codes "   3   x  4" ∷ codes "ABC  d'e" ∷ [] ∷ codes "f" ∷ codes " 1 of 2" ∷ codes " 1" ∷ []) }
    ensures formats_that_are_texts_ends { Ends no_options formats_that_are_texts (setting_apart (units_of no_options formats_that_are_texts)) (units_with [] []) Plain (codes "   1   2" ∷ codes " 1x  2" ∷ codes "   3   4" ∷ codes "   5" ∷ []) }
    ensures texts_as_files_ends { Ends no_options texts_as_files (setting_apart (units_of no_options texts_as_files)) (units_with [] []) Plain (codes "   34    2    3    4  -12   22 T" ∷ codes "  1   2   3   4   -12 34" ∷ codes "    3    4" ∷ []) }
{}

/// Programs that read end with the records that another processor writes for them.
pub fn input_programs()
    ensures fields_with_blanks_ends { Ends no_options fields_with_blanks (setting_apart (units_of no_options fields_with_blanks)) (units_with (codes " 1 2 3 4-5  " ∷ codes "abcdefgh" ∷ codes ".TRUF 8" ∷ []) []) Plain (codes "    12   304    -5     0" ∷ codes "ab  efg h    " ∷ codes " T F  8" ∷ []) }
    ensures records_and_columns_ends { Ends no_options records_and_columns (setting_apart (units_of no_options records_and_columns)) (units_with (codes "1234" ∷ codes "567" ∷ codes "8 9" ∷ codes "10" ∷ codes "11" ∷ []) []) Plain (codes "  34  12 567   6" ∷ codes "   8  10  11" ∷ []) }
    ensures values_by_lists_ends { Ends no_options values_by_lists (setting_apart (units_of no_options values_by_lists)) (units_with (codes "1,,3" ∷ codes "2*7, 8 /" ∷ codes "'it''s' .true." ∷ codes "abcdef,9" ∷ codes "4,5" ∷ codes "6 7 8 9" ∷ []) []) Plain (codes "  1  0  3  7  7  8 -1" ∷ codes "it's T abcd  9" ∷ codes "  4  5  6  7" ∷ []) }
    ensures ends_and_errors_ends { Ends no_options ends_and_errors (setting_apart (units_of no_options ends_and_errors)) (units_with (codes " 3" ∷ codes "12" ∷ codes "-5" ∷ []) []) Plain (codes "  10" ∷ codes "  10 T" ∷ []) }
    ensures sorted_names_ends { Ends no_options sorted_names (setting_apart (units_of no_options sorted_names)) (units_with (codes "NUTS      40" ∷ codes "BOLTS    125" ∷ codes "WASHERS    7" ∷ []) []) Plain (codes " BOLTS      125" ∷ codes " NUTS        40" ∷ codes " WASHERS      7" ∷ []) }
{}

/// Programs that open, position and close files end with the records that another processor writes for them.
pub fn units_programs()
    ensures records_read_again_ends { Ends no_options records_read_again (setting_apart (units_of no_options records_read_again)) (units_with [] (codes "d" ∷ [])) Plain (codes "   1   4   4  78" ∷ []) }
    ensures statuses_of_units_ends { Ends no_options statuses_of_units (setting_apart (units_of no_options statuses_of_units)) (units_with [] (codes "d" ∷ [])) Plain (codes "  0  0  0  5 -1" ∷ codes "  0" ∷ []) }
    ensures blanks_as_zeros_ends { Ends no_options blanks_as_zeros (setting_apart (units_of no_options blanks_as_zeros)) (units_with [] (codes "d" ∷ [])) Plain (codes "  1020    12" ∷ []) }
{}

/// Programs of expressions end with the records that another processor writes for them.
pub fn expressions_programs()
    ensures powers_and_quotients_ends { Ends no_options powers_and_quotients (setting_apart (units_of no_options powers_and_quotients)) (units_with [] []) Plain (codes "  512    0    1   -1" ∷ codes "   -4    3   -3    1" ∷ codes "   -1    1   -3    3" ∷ codes "    2    0    4    9" ∷ codes "   -1    6   13   14" ∷ []) }
    ensures constants_by_name_ends { Ends no_options constants_by_name (setting_apart (units_of no_options constants_by_name)) (units_with [] []) Plain (codes " 19 T Tabcbc" ∷ []) }
    ensures operands_of_logicals_ends { Ends no_options operands_of_logicals (setting_apart (units_of no_options operands_of_logicals)) (units_with [] []) Plain (codes " T T F T" ∷ codes " T F T F" ∷ []) }
    ensures lists_by_value_ends { Ends no_options lists_by_value (setting_apart (units_of no_options lists_by_value)) (units_with [] []) Plain (codes "  -1 T 9" ∷ codes "  1 4 9 16 25 36 49 64 81 100 121 144" ∷ []) }
{}

/// The worked runs of transfers: by formats, by lists, on internal files, and of a whole report.
pub fn transfers_run()
    ensures text_continued_ends { Ends no_options text_continued (setting_apart (units_of no_options text_continued)) (units_with [] []) Plain (codes " AB                                                       CD" ∷ []) }
    ensures many_continuations_ends { Ends no_options many_continuations (setting_apart (units_of no_options many_continuations)) (units_with [] []) Plain (codes "  20" ∷ []) }
    ensures reversion_and_fields_ends { Ends no_options reversion_and_fields (setting_apart (units_of no_options reversion_and_fields)) (units_with [] []) Plain (codes "  1 02 03" ∷ [] ∷ codes " 04 05" ∷ [] ∷ codes " 06 07" ∷ [] ∷ codes " 08 09" ∷ [] ∷ codes "***" ∷ codes "  ABC" ∷ codes "ABCDE" ∷ []) }
    ensures nulls_and_a_slash_ends { Ends no_options nulls_and_a_slash (setting_apart (units_of no_options nulls_and_a_slash)) (units_with (codes "3*7,," ∷ codes "/" ∷ []) []) Plain (codes "  7 7 7 8 9" ∷ codes "  -1" ∷ codes "  6" ∷ []) }
    ensures stock_report_ends { Ends no_options stock_report stock_report_setting (units_with (codes "NUTS      40" ∷ codes "BOLTS    125" ∷ codes "WASHERS    7" ∷ []) []) Plain (codes " BOLTS      125" ∷ codes " NUTS        40" ∷ codes " WASHERS      7" ∷ codes " TOTAL      172" ∷ []) }
    ensures digits_of_a_square_ends { Ends no_options digits_of_a_square (setting_apart (units_of no_options digits_of_a_square)) (units_with [] []) Plain (codes " 025! 3 T" ∷ []) }
    ensures nothing_to_read_ends { Ends no_options nothing_to_read (setting_apart (units_of no_options nothing_to_read)) (units_with [] []) (Io (negsuc 0)) [] }
    ensures bounds_from_zero_ends { Ends no_options bounds_from_zero (setting_apart (units_of no_options bounds_from_zero)) (units_with [] []) Plain (codes "  -1 T 9" ∷ []) }
    ensures opened_once { Ends no_options file_opened_twice (setting_apart (units_of no_options file_opened_twice)) (units_with [] (codes "D" ∷ [])) Plain (codes "  7" ∷ []) }
    ensures opened_twice { Ends no_options file_opened_twice (setting_apart (units_of no_options file_opened_twice)) (units_with [] (codes "D" ∷ codes "D" ∷ [])) Plain (codes "  0" ∷ []) }
{}

/// Further worked runs: of loops, storage, texts, statement functions and transfers.
pub fn further_runs()
    ensures branch_with_a_list_ends { Ends no_options branch_with_a_list (setting_apart (units_of no_options branch_with_a_list)) (units_with [] []) Plain (codes "  2" ∷ []) }
    ensures loops_with_one_end_ends { Ends no_options loops_with_one_end (setting_apart (units_of no_options loops_with_one_end)) (units_with [] []) Plain (codes "  4 3 32" ∷ []) }
    ensures matrix_of_a_dummy_ends { Ends no_options matrix_of_a_dummy (setting_apart (units_of no_options matrix_of_a_dummy)) (units_with [] []) Plain (codes "  6 512 0" ∷ []) }
    ensures block_with_values_ends { Ends no_options block_with_values block_with_values_setting (units_with [] []) Plain (codes "  4 9" ∷ []) }
    ensures text_cut_ends { Ends no_options text_cut (setting_apart (units_of no_options text_cut)) (units_with [] []) Plain (codes " ABC 3 3" ∷ []) }
    ensures text_repeated_ends { Ends no_options text_repeated (setting_apart (units_of no_options text_repeated)) (units_with [] []) Plain (codes " QQ!" ∷ []) }
    ensures sum_of_a_square_ends { Ends no_options sum_of_a_square (setting_apart (units_of no_options sum_of_a_square)) (units_with [] []) Plain (codes "  12" ∷ []) }
    ensures format_gone_on_with_ends { Ends no_options format_gone_on_with (setting_apart (units_of no_options format_gone_on_with)) (units_with [] []) Plain (codes " 1 2 3" ∷ codes " 4" ∷ []) }
    ensures integer_with_a_letter_ends { Ends no_options integer_with_a_letter (setting_apart (units_of no_options integer_with_a_letter)) (units_with (codes "A1" ∷ []) []) Plain (codes "  1" ∷ []) }
    ensures record_read_back_ends { Ends no_options record_read_back (setting_apart (units_of no_options record_read_back)) (units_with [] (codes "D" ∷ [])) Plain (codes "  4" ∷ []) }
{}

/// Acts of which nothing is said, each with its step: of formats and records, and further ones of values, labels and calls.
pub fn further_acts()
    ensures descriptor_of_another_type_meets { MeetsApart no_options descriptor_of_another_type [] 1 WrongDescriptor }
    ensures item_of_another_type_meets { MeetsApart no_options item_of_another_type (codes "7" ∷ []) 1 WrongDescriptor }
    ensures format_that_ends_early_meets { MeetsApart no_options format_that_ends_early [] 1 FormatEndsEarly }
    ensures record_without_value_meets { MeetsApart no_options record_without_value [] 0 NoValue }
    ensures remainder_past_32_bits_meets { MeetsApart no_options remainder_past_32_bits [] 0 Overflow }
    ensures zero_to_a_negative_power_meets { MeetsApart no_options zero_to_a_negative_power [] 0 ZeroDivide }
    ensures part_past_its_text_meets { MeetsApart no_options part_past_its_text [] 0 (OutOfBounds (codes "s") (pos 4)) }
    ensures label_in_a_block_meets { MeetsApart no_options label_in_a_block [] 1 BadAssignedLabel }
    ensures text_too_short_for_its_dummy_meets { MeetsApart no_options text_too_short_for_its_dummy [] 0 Disagreement }
    ensures argument_of_another_type_meets { MeetsApart no_options argument_of_another_type [] 0 Disagreement }
    ensures function_of_another_type_meets { MeetsApart no_options function_of_another_type [] 1 Disagreement }
    ensures close_in_a_transfer_meets { MeetsApart no_options close_in_a_transfer [] 2 TransferInTransfer }
    ensures dimension_past_32_bits_meets { MeetsApart no_options dimension_past_32_bits [] 0 BadDimension }
{}

/// Where no unit has a common block or an EQUIVALENCE, and no stored name of a unit stands twice, each name in a sequence of its own is the
/// setting of the definition; and so it is for the programs whose runs are computed over it.
pub fn settings_apart_are_settings()
    ensures law { ApartIsASetting }
    ensures worked { IsTrue (all_share_nothing sources_apart) }
{}

/// The settings of the programs over COMMON and EQUIVALENCE are those of the definition: blocks end to end in order of
/// appearance, equivalenced places one, all else apart, numbered as their names are first seen.
pub fn settings_of_storage()
    ensures overlay_of_a_matrix_placed { IsSetting (units_of no_options overlay_of_a_matrix) overlay_of_a_matrix_setting }
    ensures overlay_in_a_chain_placed { IsSetting (units_of no_options overlay_in_a_chain) overlay_in_a_chain_setting }
    ensures common_that_differs_by_unit_placed { IsSetting (units_of no_options common_that_differs_by_unit) common_that_differs_by_unit_setting }
    ensures common_made_longer_placed { IsSetting (units_of no_options common_made_longer) common_made_longer_setting }
    ensures texts_that_overlap_placed { IsSetting (units_of no_options texts_that_overlap) texts_that_overlap_setting }
    ensures arrays_over_their_file_placed { IsSetting (units_of no_options arrays_over_their_file) arrays_over_their_file_setting }
    ensures values_of_a_block_placed { IsSetting (units_of no_options values_of_a_block) values_of_a_block_setting }
    ensures block_named_external_placed { IsSetting (units_of no_options block_named_external) block_named_external_setting }
    ensures common_that_is_passed_placed { IsSetting (units_of no_options common_that_is_passed) common_that_is_passed_setting }
    ensures stock_report_placed { IsSetting (units_of no_options stock_report) stock_report_setting }
    ensures block_with_values_placed { IsSetting (units_of no_options block_with_values) block_with_values_setting }
    ensures common_seen_twice_placed { IsSetting (units_of no_options common_seen_twice) common_setting }
    ensures arrays_equivalenced_placed { IsSetting (units_of no_options arrays_equivalenced) arrays_setting }
    ensures types_equivalenced_placed { IsSetting (units_of no_options (types_equivalenced (codes "l"))) types_setting }
    ensures other_type_placed { IsSetting (units_of no_options (types_equivalenced (codes "i"))) types_setting }
    ensures character_in_a_number_placed { IsSetting (units_of no_options character_in_a_number) character_in_a_number_setting }
    ensures numbers_that_overlap_placed { IsSetting (units_of no_options (numbers_that_overlap (codes "i"))) numbers_that_overlap_setting }
    ensures other_number_placed { IsSetting (units_of no_options (numbers_that_overlap (codes "j"))) numbers_that_overlap_setting }
{}

/// Programs over substrings end with the records that another processor writes for them.
pub fn substrings_programs()
    ensures part_that_begins_an_array_ends { Ends no_options part_that_begins_an_array (setting_apart (units_of no_options part_that_begins_an_array)) (units_with [] []) Plain (codes " de" ∷ []) }
    ensures parts_that_are_one_item_ends { Ends no_options parts_that_are_one_item (setting_apart (units_of no_options parts_that_are_one_item)) (units_with (codes "'xyz' 'u'" ∷ []) (codes "d" ∷ [])) Plain (codes "axydef auv -1  0" ∷ []) }
{}
