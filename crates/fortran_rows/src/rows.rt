//! Worked runs of small programs, each as the contract of a call that does nothing. Nothing is run here:
//! the clauses are computed from the definition of what a set of files means.
#![tactic(auto)]

ghost use Rattle.std.specs.Prelude.{◌∷◌, [], codes, pos, negsuc, true};
ghost use Rattle.fortran_checks.specs.f_tree.declared.expressions.Expr as expr;
ghost use Rattle.fortran_checks.specs.f_tree.Values.{ActiveProcedure, BadAssignedLabel, BadCharacterCode, BadDimension, DefinedAndReferenced, DefinesReadOnly, Disagreement, LoopVariableChanged, MissingProcedure, NoResult, NoValue, NotOfThisEntry, OutOfBounds, Overflow, PastExtent, TransferInTransfer, ZeroDivide, ZeroStep};
ghost use Rattle.fortran_checks.specs.f_tree.World.{Io, Plain, Stop};
ghost use Rattle.fortran_rows.specs.LongSources.{sum_of_a_thousand};
ghost use Rattle.fortran_checks.specs.f_tree.Meaning.{units_of, Closed};
ghost use Rattle.fortran_checks.specs.f_tree.Setting.{IsSetting};
ghost use Rattle.fortran_checks.specs.f_tree.Runs.{Runs, RunsApart, Ends, units_with, Meets, MeetsApart, no_options, setting_apart};
ghost use Rattle.fortran_rows.specs.ErrorSources.{end_is_no_error, files_by_their_names, items_before_an_error, items_with_step_of_zero, numbers_of_errors, record_of_an_error, stopped_without_a_text, text_in_parentheses_moved, unit_before_format};
ghost use Rattle.fortran_rows.specs.OrderSources.{dimension_of_another_entry, format_fetched_last, items_of_no_turn, label_for_a_variable, pieces_fetched_last, procedure_for_a_variable, right_side_first};
ghost use Rattle.fortran_rows.specs.StorageSources.{block_named_external};
ghost use Rattle.fortran_rows.specs.SubstringsSources.{array_past_the_end, element_past_the_end, part_of_five, right_side_before_a_function, right_side_before_a_function_setting, right_side_before_a_statement_function, right_side_without_its_end};
ghost use Rattle.fortran_rows.specs.WorkedSources.{alternate_returns, argument_too_many, arms, array_of_a_dummy, arrays_equivalenced, arrays_setting, assigned_branch, call_of_nothing, code_of_no_character, common_seen_twice, common_setting, constant_defined, constants_and_bounds, dimension_of_no_element, division_by_zero, dummy_of_another_entry, element_past_the_argument, element_past_the_last, entries_of_two_types, entries_share_a_result, function_of_any_length, function_without_result, implied_loops, least_integer, loop_look_alike, loop_that_never_turns, loop_to_the_last_integer, num, procedure_passed, recursion, shared_terminal, sign_of_the_least, statement_function_in_another, status_in, step_of_zero, stopped, sum_printed, text_apart_from_itself, text_moved_within_itself, texts_and_a_statement_function, transfer_in_a_transfer, types_equivalenced, types_setting, unit_not_connected, values_from_data, variable_changed_in_its_loop, variable_without_value, written_over};

/// `I=2`, `PRINT *,I+3`, `END`: the assignment, the start, the item and the end of the PRINT, and END.
pub fn sum_is_printed()
    ensures closed { Closed (units_of no_options sum_printed) }
    ensures placed { IsSetting (units_of no_options sum_printed) (setting_apart (units_of no_options sum_printed)) }
    ensures runs { RunsApart no_options sum_printed [] 4 Plain (codes "  5" ∷ []) }
{}

/// A set is closed where each procedure that is referenced or passed is there; EXTERNAL alone is no reference.
pub fn sets_are_closed()
    ensures passes { Closed (units_of no_options procedure_passed) }
    ensures names_a_block { Closed (units_of no_options block_named_external) }
    ensures lacks_one { ¬ Closed (units_of no_options call_of_nothing) }
{}

/// The worked runs of DO loops and implied DO loops.
pub fn loops_run()
    ensures looks_alike { RunsApart no_options loop_look_alike [] 4 Plain (codes "  15" ∷ []) }
    ensures never_turns { RunsApart no_options loop_that_never_turns [] 4 Plain (codes "  5" ∷ []) }
    ensures turns_once { RunsApart (record no_options { onetrip = true }) loop_that_never_turns [] 8 Plain (codes "  0" ∷ codes "  6" ∷ []) }
    ensures shares_terminal { RunsApart no_options shared_terminal [] 14 Plain (codes "  1 1" ∷ codes "  3 2" ∷ []) }
    ensures implied { RunsApart no_options implied_loops [] 17 Plain (codes "  1 2 1 2 4 2" ∷ []) }
{}

/// A run of thousands of steps: a thousand turns of a loop.
pub fn thousands_of_steps_run()
    ensures sums { RunsApart no_options sum_of_a_thousand [] 2005 Plain (codes "  500500" ∷ []) }
{}

/// The worked runs of IF blocks and an assigned GO TO, with a list of labels and without.
pub fn branches_run()
    ensures first_arm { RunsApart no_options (arms 1) [] 8 Plain (codes "  1" ∷ codes "  4" ∷ []) }
    ensures second_arm { RunsApart no_options (arms 2) [] 9 Plain (codes "  2" ∷ codes "  4" ∷ []) }
    ensures last_arm { RunsApart no_options (arms 3) [] 9 Plain (codes "  3" ∷ codes "  4" ∷ []) }
    ensures assigned { RunsApart no_options (assigned_branch (10 ∷ [])) [] 5 Plain (codes "  1" ∷ []) }
    ensures assigned_alone { RunsApart no_options (assigned_branch []) [] 5 Plain (codes "  1" ∷ []) }
    ensures least { RunsApart no_options least_integer [] 4 Plain (codes "  -2147483648" ∷ []) }
    ensures sign_of_least { RunsApart no_options (sign_of_the_least (expr.Minus (num 1))) [] 4 Plain (codes "  -2147483648" ∷ []) }
{}

/// The worked runs of calls.
pub fn calls_run()
    ensures entries { RunsApart no_options entries_share_a_result [] 10 Plain (codes "  4 8" ∷ []) }
    ensures alternates { RunsApart no_options alternate_returns [] 24 Plain (codes "  0" ∷ codes "  10" ∷ codes "  3" ∷ []) }
{}

/// The order of operands: the right side before the subscripts of the left, pieces of a text and a format fetched when all operands are
/// settled, an operand of a relation fetched in its turn; and what is not valued: items of no turn, the dimensions of another entry.
pub fn orders_run()
    ensures right_side { RunsApart no_options right_side_first [] 10 Plain (codes "  1 5" ∷ []) }
    ensures pieces { RunsApart no_options pieces_fetched_last [] 16 Plain (codes " CDAB" ∷ codes "  T" ∷ []) }
    ensures format { RunsApart no_options format_fetched_last [] 8 Plain (codes "    7" ∷ []) }
    ensures no_turn { RunsApart no_options items_of_no_turn [] 4 Plain (codes "  1" ∷ []) }
    ensures other_entry { RunsApart no_options dimension_of_another_entry [] 5 Plain (codes "  4" ∷ []) }
{}

/// Errors by their numbers, and what stands after one: items before it are defined, the record in the making is not written. Files by their names.
pub fn errors_have_numbers()
    ensures numbers { Ends no_options numbers_of_errors (setting_apart (units_of no_options numbers_of_errors)) (units_with [] []) Plain (codes "  2 3 4 5 8 10" ∷ []) }
    ensures items { Ends no_options items_before_an_error (setting_apart (units_of no_options items_before_an_error)) (units_with [] []) Plain (codes "  7 9 1" ∷ []) }
    ensures record { Ends no_options record_of_an_error (setting_apart (units_of no_options record_of_an_error)) (units_with [] []) Plain (codes "  1" ∷ codes "  4" ∷ []) }
    ensures unit_first { Ends no_options unit_before_format (setting_apart (units_of no_options unit_before_format)) (units_with [] []) Plain (codes "  6" ∷ []) }
    ensures end_alone { Ends no_options end_is_no_error (setting_apart (units_of no_options end_is_no_error)) (units_with [] []) (Io (negsuc 0)) [] }
    ensures files { Ends no_options files_by_their_names (setting_apart (units_of no_options files_by_their_names)) (units_with [] (codes "D" ∷ codes "fort.9" ∷ [])) Plain (codes "  4" ∷ []) }
{}

/// Acts of which nothing is said: those of values and places.
pub fn acts_of_values()
    ensures overflow { MeetsApart no_options loop_to_the_last_integer [] 8 Overflow }
    ensures sign_overflow { MeetsApart no_options (sign_of_the_least (num 1)) [] 2 Overflow }
    ensures zero_divide { MeetsApart no_options division_by_zero [] 0 ZeroDivide }
    ensures no_value { MeetsApart no_options variable_without_value [] 0 NoValue }
    ensures out_of_bounds { MeetsApart no_options element_past_the_last [] 0 (OutOfBounds (codes "a") (pos 3)) }
{}

/// Acts of which nothing is said: those of loops, branches and transfers.
pub fn acts_of_control()
    ensures zero_step { MeetsApart no_options step_of_zero [] 0 ZeroStep }
    ensures zero_step_of_items { MeetsApart no_options items_with_step_of_zero [] 1 ZeroStep }
    ensures variable_changed { MeetsApart no_options variable_changed_in_its_loop [] 2 LoopVariableChanged }
    ensures assigned_label { MeetsApart no_options (assigned_branch (20 ∷ [])) [] 1 BadAssignedLabel }
    ensures in_transfer { MeetsApart no_options transfer_in_a_transfer [] 2 TransferInTransfer }
{}

/// Acts of which nothing is said: those of calls.
pub fn acts_of_calls()
    ensures active { MeetsApart no_options recursion [] 1 ActiveProcedure }
    ensures read_only { MeetsApart no_options constant_defined [] 1 DefinesReadOnly }
    ensures disagrees { MeetsApart no_options argument_too_many [] 0 Disagreement }
    ensures label { MeetsApart no_options label_for_a_variable [] 0 Disagreement }
    ensures procedure { MeetsApart no_options procedure_for_a_variable [] 0 Disagreement }
    ensures no_result { MeetsApart no_options function_without_result [] 2 NoResult }
    ensures missing { MeetsApart no_options call_of_nothing [] 0 MissingProcedure }
    ensures dimension { MeetsApart no_options dimension_of_no_element [] 0 BadDimension }
    ensures past_extent { MeetsApart no_options element_past_the_argument [] 1 PastExtent }
    ensures other_entry { MeetsApart no_options dummy_of_another_entry [] 1 NotOfThisEntry }
    ensures array_past_extent { MeetsApart no_options (array_of_a_dummy 5) [] 2 PastExtent }
{}

/// The worked runs of texts and statement functions.
pub fn texts_run()
    ensures texts { RunsApart no_options texts_and_a_statement_function [] 7 Plain (codes " AB ! 2 T 25" ∷ []) }
    ensures nested { RunsApart no_options statement_function_in_another [] 6 Plain (codes "  12 7" ∷ []) }
    ensures apart { RunsApart no_options text_apart_from_itself [] 5 Plain (codes " CDCD" ∷ []) }
    ensures within { MeetsApart no_options text_moved_within_itself [] 1 DefinedAndReferenced }
    ensures within_parentheses { MeetsApart no_options text_in_parentheses_moved [] 1 DefinedAndReferenced }
    ensures code { MeetsApart no_options code_of_no_character [] 1 BadCharacterCode }
{}

/// The worked runs of COMMON and EQUIVALENCE.
pub fn storage_is_shared()
    ensures common { Runs no_options common_seen_twice common_setting [] 10 Plain (codes "  1 2 3" ∷ []) }
    ensures arrays { Runs no_options arrays_equivalenced arrays_setting [] 4 Plain (codes "  7" ∷ []) }
    ensures types { Runs no_options (types_equivalenced (codes "l")) types_setting [] 9 Plain (codes "  T" ∷ codes "  6" ∷ []) }
    ensures other_type { Meets no_options (types_equivalenced (codes "i")) types_setting [] 3 NoValue }
{}

/// The worked runs of DATA, PARAMETER and bounds.
pub fn declarations_count()
    ensures from_data { RunsApart no_options values_from_data [] 5 Plain (codes "  7 7 8 2 -5" ∷ []) }
    ensures constants { RunsApart no_options constants_and_bounds [] 14 Plain (codes "  36 1 6" ∷ []) }
{}

/// The worked runs of procedures that are passed, of functions of any length or of two types, and of whole arrays.
pub fn procedures_and_lengths()
    ensures passed { RunsApart no_options procedure_passed [] 9 Plain (codes "  64" ∷ []) }
    ensures any_length { RunsApart no_options function_of_any_length [] 6 Plain (codes " ABAB!" ∷ []) }
    ensures dummy_array { RunsApart no_options (array_of_a_dummy 3) [] 5 Plain (codes "  1 2 3" ∷ []) }
    ensures two_types { RunsApart no_options entries_of_two_types [] 6 Plain (codes "  T" ∷ []) }
{}

/// The worked runs of statements on units, and of STOP.
pub fn units_change()
    ensures fails { RunsApart no_options (unit_not_connected []) [] 0 (Io (pos 6)) ([]) }
    ensures status { RunsApart no_options (unit_not_connected (status_in (codes "n") ∷ [])) [] 4 Plain (codes "  6" ∷ []) }
    ensures over { RunsApart no_options written_over [] 10 (Io (pos 9)) (codes "  2" ∷ []) }
    ensures stops { RunsApart no_options stopped [] 0 (Stop (codes "7")) ([]) }
    ensures stops_plainly { RunsApart no_options stopped_without_a_text [] 3 Plain (codes "  1" ∷ []) }
{}

/// The assignment of a text whose left side has a reference to a function or to a statement function: the whole right side is fetched before
/// the left side is settled, and is kept.
pub fn right_sides_are_kept()
    ensures placed { IsSetting (units_of no_options right_side_before_a_function) right_side_before_a_function_setting }
    ensures function { Runs no_options right_side_before_a_function right_side_before_a_function_setting [] 9 Plain (codes " ABC" ∷ []) }
    ensures statement_function { RunsApart no_options right_side_before_a_statement_function [] 5 Plain (codes " BCC" ∷ []) }
    ensures whole { MeetsApart no_options right_side_without_its_end [] 1 NoValue }
{}

/// A substring that is passed: a dummy array goes on to the end of the array that it is a part of, and no further.
pub fn substrings_are_passed()
    ensures element { MeetsApart no_options element_past_the_end [] 2 PastExtent }
    ensures array { MeetsApart no_options array_past_the_end [] 2 PastExtent }
{}

/// Of the places of a substring the first one is told where it is outside 1 to the length, else the second.
pub fn places_of_substrings_are_told()
    ensures first_and_second { MeetsApart no_options (part_of_five 9 10) [] 1 (OutOfBounds (codes "s") (pos 9)) }
    ensures first { MeetsApart no_options (part_of_five 9 2) [] 1 (OutOfBounds (codes "s") (pos 9)) }
    ensures below_one { MeetsApart no_options (part_of_five 0 9) [] 1 (OutOfBounds (codes "s") (pos 0)) }
    ensures second { MeetsApart no_options (part_of_five 3 9) [] 1 (OutOfBounds (codes "s") (pos 9)) }
    ensures before_the_first { MeetsApart no_options (part_of_five 3 2) [] 1 (OutOfBounds (codes "s") (pos 2)) }
{}
