//! What is found of the calls of small sets, each as a clause of a call that does nothing: the clauses are computed from the trees.
#![tactic(auto)]

ghost use Rattle.std.specs.Prelude.{◌∷◌, [], ◌≡◌, codes};
ghost use Rattle.call_shapes.specs.f_tree.declared.expressions.Expr as expr;
ghost use Rattle.call_shapes.specs.declared.findings.Reason.TheVariants as reason;
ghost use Rattle.call_shapes.specs.declared.shapes.Argument.TheVariants as argument;
ghost use Rattle.call_check_rows.specs.CallSources.{calling_a_function, calling_in_a_definition, calling_s, calling_t, calling_with_logical, calling_within_a_call, found, found_in, including_a_call, line, num, referring_to_a_subroutine, wanting_a_logical};

/// Calls of procedures of the set.
pub fn calls_disagree_with_the_set()
    ensures number { found_in (calling_s (num 1 ∷ num 2 ∷ [])) [] ≡ found 0 1 (codes "s") (reason.Count 2 1) ∷ [] }
    ensures argument { found_in calling_with_logical [] ≡ found 0 3 (codes "s") (reason.Argument 1) ∷ [] }
    ensures agrees { found_in (calling_s (num 1 ∷ [])) [] ≡ [] }
    ensures as_subroutine { found_in calling_a_function [] ≡ found 0 1 (codes "n") reason.AsSubroutine ∷ [] }
    ensures as_function { found_in referring_to_a_subroutine [] ≡ found 0 1 (codes "n") reason.AsFunction ∷ [] }
    ensures result_type { found_in wanting_a_logical [] ≡ found 0 2 (codes "n") reason.ResultType ∷ [] }
{}

/// Calls of names that lines of prototypes have.
pub fn calls_disagree_with_lines()
    ensures first_line { found_in (calling_t (num 5 ∷ [])) (line (codes "t") (argument.Text ∷ []) ∷ line (codes "t") (argument.Integer ∷ []) ∷ [])
        ≡ found 0 1 (codes "t") (reason.Argument 1) ∷ [] }
    ensures no_counterpart { found_in (calling_t (num 5 ∷ [])) (line (codes "u") (argument.Text ∷ []) ∷ []) ≡ [] }
    ensures labels_left_out { found_in (calling_t (expr.AltReturn 10 ∷ num 5 ∷ [])) (line (codes "t") (argument.Integer ∷ []) ∷ []) ≡ [] }
    ensures set_first { found_in (calling_s (num 1 ∷ [])) (line (codes "s") [] ∷ []) ≡ [] }
{}

/// Calls in one statement from the left, in the definition of a statement function, and in included statements.
pub fn calls_are_listed_in_order()
    ensures from_the_left { found_in calling_within_a_call []
        ≡ found 0 1 (codes "s") (reason.Count 2 1) ∷ found 0 1 (codes "n") (reason.Count 2 1) ∷ [] }
    ensures at_the_definition { found_in calling_in_a_definition [] ≡ found 0 1 (codes "n") (reason.Count 2 1) ∷ [] }
    ensures once_for_each_unit { found_in including_a_call []
        ≡ found 0 3 (codes "s") (reason.Count 2 1) ∷ found 1 1 (codes "s") (reason.Count 0 1) ∷ found 1 1 (codes "s") (reason.Count 0 1) ∷ [] }
{}
