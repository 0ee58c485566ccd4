//! Worked runs, each as the contract of a call that does nothing.
#![tactic(auto)]

ghost use Rattle.std.specs.Prelude.{true, [], ◌∷◌};
ghost use Rattle.agreeing_runs.specs.f_tree.declared.expressions.Expr as expr;
ghost use Rattle.mismatch_rows.specs.MismatchSources.{IsMismatchedAt, calling_s, logical_function, num, subroutine};

/// A run comes to a call with too many arguments, to one with an argument of another type, and to a CALL of a function.
pub fn disagreeing_calls_are_mismatched()
    ensures number { IsMismatchedAt (calling_s (num 1 ∷ num 2 ∷ []) subroutine) 0 }
    ensures argument_type { IsMismatchedAt (calling_s (expr.Logical true ∷ []) subroutine) 0 }
    ensures procedure_kind { IsMismatchedAt (calling_s (num 1 ∷ []) logical_function) 0 }
{}
