//! Small programs whose records a C compiler has given, and the steps that each takes. A function here does nothing, and its
//! contract is the steps, the ending and the records; the programs' texts stand in `examples/c`, with a script that compiles and runs them.
#![tactic(auto, unfolding(c_tree::specs::Opened::meaning_opened))]

ghost use Rattle.std.specs.Prelude.{[], ◌∷◌, codes};
ghost use Rattle.c_tree.specs.World.{Plain, Stop};
ghost use Rattle.c_rows.specs.CPrograms.{EndsAt, sum_of_ten, common_divisor, factorial, fibonacci, halved_or_tripled, sorted, computed_branch, swapped, returned_call, passed_function, copied_text, compared_texts, joined_texts, powers, cut_quotients, decided_early, jumps_back, shared_objects, moved_pointers, stops, kept_counter, full_record, field_of_a_list};

/// Loops of each kind.
pub fn turns()
    ensures sum_of_ten_ends { EndsAt sum_of_ten 47 Plain (codes "  55" ∷ []) }
    ensures common_divisor_ends { EndsAt common_divisor 14 Plain (codes "  12" ∷ []) }
    ensures factorial_ends { EndsAt factorial 51 Plain (codes "  479001600" ∷ []) }
    ensures fibonacci_ends { EndsAt fibonacci 38 Plain (codes "  55" ∷ []) }
    ensures halved_or_tripled_ends { EndsAt halved_or_tripled 44 Plain (codes "  8" ∷ []) }
{}

/// Branches, and loops in loops.
pub fn branches()
    ensures sorted_ends { EndsAt sorted 60 Plain (codes "  -5 -1 3 4" ∷ []) }
    ensures computed_branch_ends { EndsAt computed_branch 36 Plain (codes "  1939" ∷ []) }
    ensures jumps_back_ends { EndsAt jumps_back 24 Plain (codes "  4" ∷ []) }
{}

/// Calls, and what they reach.
pub fn calls()
    ensures swapped_ends { EndsAt swapped 10 Plain (codes "  8 5" ∷ []) }
    ensures returned_call_ends { EndsAt returned_call 8 Plain (codes "  8" ∷ []) }
    ensures passed_function_ends { EndsAt passed_function 9 Plain (codes "  42" ∷ []) }
    ensures kept_counter_ends { EndsAt kept_counter 13 Plain (codes "  3" ∷ []) }
    ensures shared_objects_ends { EndsAt shared_objects 8 Plain (codes "  721" ∷ []) }
{}

/// Texts.
pub fn texts()
    ensures copied_text_ends { EndsAt copied_text 6 Plain (codes " xxy   " ∷ []) }
    ensures compared_texts_ends { EndsAt compared_texts 9 Plain (codes "  0 1 3" ∷ []) }
    ensures joined_texts_ends { EndsAt joined_texts 9 Plain (codes " leright " ∷ []) }
    ensures stops_ends { EndsAt stops 5 (Stop (codes "77")) (codes "  1" ∷ []) }
    ensures full_record_ends { EndsAt full_record 34 Plain (codes "  -2147483647 -2147483647 -2147483647 -2147483647 -2147483647 -2147483647" ∷ codes "  -2147483647 T" ∷ []) }
{}

/// Values, pointers and fields.
pub fn values()
    ensures powers_ends { EndsAt powers 9 Plain (codes "  -243 -5 8" ∷ []) }
    ensures cut_quotients_ends { EndsAt cut_quotients 9 Plain (codes "  -3 -1 -2147483645" ∷ []) }
    ensures decided_early_ends { EndsAt decided_early 10 Plain (codes "  0 9 7" ∷ []) }
    ensures moved_pointers_ends { EndsAt moved_pointers 11 Plain (codes "  261 49 1" ∷ []) }
    ensures field_of_a_list_ends { EndsAt field_of_a_list 6 Plain (codes "  13" ∷ []) }
{}
