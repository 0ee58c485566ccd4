//! Worked programs: what each comes to, computed from its tree. A function here does nothing, and its
//! contract is the row.
#![tactic(auto, unfolding(c_tree::specs::Opened::meaning_opened))]

ghost use Rattle.std.specs.Prelude.{◌≡◌, [], ◌∷◌, pos, codes, None, Some};
ghost use Rattle.c_rows.specs.RowTexts.{output_unit, no_units, records_of, EndsPrinting};
ghost use Rattle.c_rows.specs.Rows.{first_path, divides_by_zero, nothing, overflows, reads_unset, stores_outside, stores_pointer, passes_too_much, calls_itself, ends_no_transfer, first_of_two, second_of_two, prints_least, adds_through_pointers, returns_a_call, switches_on, counts_up, counts_down, counts_by_two, counts_nothing, turns_once, takes_an_arm, takes_no_arm, entry_functions, enters_second, compares_texts, undeclared_name, missing_label, returns_deeply, ends_without_return, prints_by_a_format, prints_by_a_string};
ghost use Rattle.c_tree.specs.Linking.{first_broken_rule};
ghost use Rattle.c_tree.specs.Meaning.{meaning, outcome, function_name, step_factor, Running, Ended, Fault, Meaningless};
ghost use Rattle.c_tree.specs.World.{Plain, Io};
ghost use Rattle.c_tree.specs.declared.outcome.CFault.TheVariants as fault;

/// The text of `I=2`, `PRINT *,I+3`, `END`, with unit 6 connected: six steps, one record, and the end
/// of the main program.
pub fn first_path_with_unit()
    ensures links { first_broken_rule (first_path ∷ []) ≡ None }
    ensures running { outcome (meaning (first_path ∷ []) output_unit 5) ≡ Running }
    ensures ended { outcome (meaning (first_path ∷ []) output_unit 6) ≡ Ended Plain }
    ensures stays { outcome (meaning (first_path ∷ []) output_unit 7) ≡ Ended Plain }
    ensures written { records_of (pos 6) (meaning (first_path ∷ []) output_unit 6) ≡ codes "  5" ∷ [] }
    ensures factor { step_factor (first_path ∷ []) ≡ 6 }
{}

/// The same text where unit 6 is not connected: the run ends at the start of the transfer.
pub fn first_path_without_unit()
    ensures running { outcome (meaning (first_path ∷ []) no_units 1) ≡ Running }
    ensures ended { outcome (meaning (first_path ∷ []) no_units 2) ≡ Ended (Io (pos 6)) }
{}

/// `i__1 = 1 / 0;` in the main program.
pub fn zero_divisor()
    ensures running { outcome (meaning divides_by_zero no_units 0) ≡ Running }
    ensures fault { outcome (meaning divides_by_zero no_units 1) ≡ Fault fault.ZeroDivide 0 }
    ensures function { function_name divides_by_zero 0 ≡ Some (codes "MAIN__") }
{}

/// Statements that are faults, each in a main program of its own.
pub fn hostile_statements()
    ensures overflow { outcome (meaning overflows no_units 1) ≡ Fault fault.Overflow 0 }
    ensures unset { outcome (meaning reads_unset no_units 1) ≡ Fault fault.Unset 0 }
    ensures outside { outcome (meaning stores_outside no_units 1) ≡ Fault fault.Outside 0 }
    ensures kind { outcome (meaning stores_pointer no_units 1) ≡ Fault fault.Kind 0 }
    ensures disagree { outcome (meaning passes_too_much no_units 1) ≡ Fault fault.Disagree 0 }
    ensures active { outcome (meaning calls_itself no_units 1) ≡ Fault fault.Active 0 }
    ensures library { outcome (meaning ends_no_transfer no_units 1) ≡ Fault fault.Library 0 }
{}

/// Two files with one external array, and the rules of linking.
pub fn two_files()
    ensures links { first_broken_rule (first_of_two ∷ second_of_two ∷ []) ≡ None }
    ensures running { outcome (meaning (first_of_two ∷ second_of_two ∷ []) no_units 2) ≡ Running }
    ensures fault { outcome (meaning (first_of_two ∷ second_of_two ∷ []) no_units 3) ≡ Fault fault.ZeroDivide 1 }
    ensures function { function_name (first_of_two ∷ second_of_two ∷ []) 1 ≡ Some (codes "f_") }
    ensures no_main { first_broken_rule (nothing ∷ []) ≡ Some 1 }
    ensures twice { first_broken_rule (first_of_two ∷ second_of_two ∷ second_of_two ∷ []) ≡ Some 2 }
    ensures missing { first_broken_rule (first_of_two ∷ []) ≡ Some 3 }
{}

/// The least number, and numbers that functions reach through pointers and by their value.
pub fn values_and_calls()
    ensures least { EndsPrinting prints_least 5 (codes "  -2147483648") }
    ensures pointers { EndsPrinting adds_through_pointers 9 (codes "  42") }
    ensures value { EndsPrinting returns_a_call 8 (codes "  6") }
{}

/// `switch` with and without the case of its number.
pub fn switches()
    ensures first { EndsPrinting (switches_on 1) 10 (codes "  10") }
    ensures second { EndsPrinting (switches_on 2) 9 (codes "  20") }
    ensures none { EndsPrinting (switches_on 3) 9 (codes "  30") }
{}

/// `for` with each kind of step, also without a turn, and `do`.
pub fn loops()
    ensures up { EndsPrinting counts_up 19 (codes "  123") }
    ensures down { EndsPrinting counts_down 19 (codes "  321") }
    ensures by_two { EndsPrinting counts_by_two 19 (codes "  135") }
    ensures nothing { EndsPrinting counts_nothing 7 (codes "  0") }
    ensures once { EndsPrinting turns_once 8 (codes "  42") }
{}

/// `if` with and without an `else`.
pub fn arms()
    ensures first { EndsPrinting (takes_an_arm 4) 8 (codes "  1") }
    ensures second { EndsPrinting (takes_an_arm 5) 7 (codes "  2") }
    ensures neither { EndsPrinting takes_no_arm 7 (codes "  1") }
{}

/// A function for several entries with its wrappers: one more step to it and one back, and the step
/// factor counts them with the function's.
pub fn entries()
    ensures second { EndsPrinting enters_second 10 (codes "  1") }
    ensures factor { step_factor (entry_functions ∷ []) ≡ 5 }
    ensures factor_of_the_program { step_factor enters_second ≡ 5 }
{}

/// Texts and strings through the library.
pub fn texts()
    ensures equal { EndsPrinting compares_texts 6 (codes "  0") }
{}

/// A thousand signs before a number are one step, and so is the end of a body that returns nothing.
pub fn single_steps()
    ensures deep { outcome (meaning returns_deeply no_units 1) ≡ Ended Plain }
    ensures before_the_end { outcome (meaning ends_without_return no_units 1) ≡ Running }
    ensures end { outcome (meaning ends_without_return no_units 2) ≡ Ended Plain }
{}

/// A format in a static array, which a list points to, and one that stands in the list.
pub fn formats()
    ensures printed { EndsPrinting prints_by_a_format 6 (codes "   42 is ") }
    ensures printed_by_a_string { EndsPrinting prints_by_a_string 6 (codes "    42") }
{}

/// What no well-formed text has stays apart from every fault.
pub fn without_meaning()
    ensures undeclared { outcome (meaning undeclared_name no_units 1) ≡ Meaningless }
    ensures no_label { outcome (meaning missing_label no_units 1) ≡ Meaningless }
{}
