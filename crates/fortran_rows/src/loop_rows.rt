//! Worked runs of DO WHILE, END DO and IMPLICIT NONE (MIL-STD-1753), each as the contract of a call that does nothing. The programs in
//! examples/fortran were run by another processor too.
#![tactic(auto)]

ghost use Rattle.std.specs.Prelude.{◌∷◌, [], codes, true};
ghost use Rattle.fortran_checks.specs.f_tree.World.{Plain};
ghost use Rattle.fortran_checks.specs.f_tree.Meaning.{units_of};
ghost use Rattle.fortran_checks.specs.f_tree.Runs.{Ends, RunsApart, no_options, setting_apart, units_with};
ghost use Rattle.fortran_rows.specs.LoopsSources.{counted_while, every_name_declared, loops_by_end_do, while_left_by_a_branch, while_that_shares_its_end, while_with_a_function, while_with_label, while_without_label};

/// A DO WHILE is tested at its start and after each turn, whichever statement ends its range; `-onetrip` does not touch it.
pub fn while_loops_run()
    ensures counted { RunsApart no_options counted_while [] 11 Plain (codes "  3" ∷ []) }
    ensures without_label { Ends no_options while_without_label (setting_apart (units_of no_options while_without_label)) (units_with [] []) Plain (codes "  3" ∷ codes "  3" ∷ []) }
    ensures at_least_once { Ends (record no_options { onetrip = true }) while_without_label (setting_apart (units_of (record no_options { onetrip = true }) while_without_label)) (units_with [] []) Plain (codes "  3" ∷ codes "  3" ∷ []) }
    ensures with_label { Ends no_options while_with_label (setting_apart (units_of no_options while_with_label)) (units_with [] []) Plain (codes " 243   5" ∷ codes " 243  -1" ∷ codes " 243   3" ∷ codes " 243   3" ∷ []) }
    ensures with_a_function { Ends no_options while_with_a_function (setting_apart (units_of no_options while_with_a_function)) (units_with [] []) Plain (codes "    0   21" ∷ []) }
    ensures left_by_a_branch { Ends no_options while_left_by_a_branch (setting_apart (units_of no_options while_left_by_a_branch)) (units_with [] []) Plain (codes "  8" ∷ codes "    4    6  368" ∷ []) }
    ensures shares_its_end { Ends no_options while_that_shares_its_end (setting_apart (units_of no_options while_that_shares_its_end)) (units_with [] []) Plain (codes "   4   3  10" ∷ codes "   2   3 610" ∷ []) }
{}

/// END DO ends the innermost DO without a label that is open, or the DO whose label it has; a branch may go to it.
pub fn loops_by_end_do_run()
    ensures by_end_do { Ends no_options loops_by_end_do (setting_apart (units_of no_options loops_by_end_do)) (units_with [] []) Plain (codes "    4    4   36" ∷ codes "    7   45" ∷ codes "    3    3 2245" ∷ codes "    2 2245" ∷ []) }
    ensures every_name { Ends no_options every_name_declared (setting_apart (units_of no_options every_name_declared)) (units_with [] []) Plain (codes "  1  4  9 T" ∷ []) }
{}
