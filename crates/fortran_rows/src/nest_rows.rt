//! Which loops of a unit are nested, which ranges are open at a statement, and which branches go into one, each as the contract of a call
//! that does nothing: all of it is computed from the flat list of the unit's statements.
#![tactic(auto)]

ghost use Rattle.std.specs.Prelude.{◌≡◌, ◌∷◌, [], true, false, Some};
ghost use Rattle.fortran_checks.specs.f_tree.declared.expressions.Expr as expr;
ghost use Rattle.fortran_checks.specs.f_tree.declared.statements.Body as body;
ghost use Rattle.fortran_checks.specs.f_tree.Nests.{AreNested, enters_range, open_at};
ghost use Rattle.fortran_rows.specs.ControlSources.{jumps_out_of_loops};
ghost use Rattle.fortran_rows.specs.IllFormedSources.{loop_without_its_end};
ghost use Rattle.fortran_rows.specs.LoopsSources.{loops_by_end_do, while_that_shares_its_end};
ghost use Rattle.fortran_rows.specs.NestsSources.{first_unit, loop_that_ends_with, loop_without_its_end_do, range_past_its_outer_one, ranges_that_cross, terminal_before_its_loop};
ghost use Rattle.fortran_rows.specs.WorkedSources.{from_to, num, J};

/// Loops that are nested, also where two of them have one terminal statement or END DO ends them; and the ranges that are open at a statement,
/// the innermost first.
pub fn nests_are_computed()
    ensures shared { AreNested (first_unit while_that_shares_its_end) }
    ensures by_end_do { AreNested (first_unit loops_by_end_do) }
    ensures at_the_outer { open_at (first_unit while_that_shares_its_end) 1 ≡ [] }
    ensures at_the_inner { open_at (first_unit while_that_shares_its_end) 3 ≡ record { first = 1; last = 5 } ∷ [] }
    ensures at_the_end { open_at (first_unit while_that_shares_its_end) 5 ≡ record { first = 3; last = 5 } ∷ record { first = 1; last = 5 } ∷ [] }
    ensures behind { open_at (first_unit while_that_shares_its_end) 6 ≡ [] }
{}

/// Loops that are not: their ranges cross, a terminal statement is missing or stands before its DO, or is itself a DO or a DO WHILE.
pub fn bad_nests_are_found()
    ensures cross { ¬ AreNested (first_unit ranges_that_cross) }
    ensures past_the_outer { ¬ AreNested (first_unit range_past_its_outer_one) }
    ensures before { ¬ AreNested (first_unit terminal_before_its_loop) }
    ensures ends_with_a_loop { ¬ AreNested (first_unit (loop_that_ends_with (body.Do (Some 20) (from_to J (num 1) (num 2))))) }
    ensures ends_with_a_while { ¬ AreNested (first_unit (loop_that_ends_with (body.DoWhile (Some 20) (expr.Logical true)))) }
    ensures without_its_end { ¬ AreNested (first_unit loop_without_its_end) }
    ensures without_its_end_do { ¬ AreNested (first_unit loop_without_its_end_do) }
{}

/// A branch from outside a range to a statement in it, and branches within a range and out of it.
pub fn branches_into_ranges_are_found()
    ensures into { enters_range (first_unit jumps_out_of_loops) 6 3 ≡ true }
    ensures into_the_inner { enters_range (first_unit while_that_shares_its_end) 2 5 ≡ true }
    ensures within { enters_range (first_unit while_that_shares_its_end) 4 5 ≡ false }
    ensures out { enters_range (first_unit jumps_out_of_loops) 2 5 ≡ false }
{}
