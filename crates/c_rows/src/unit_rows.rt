//! Transfers and statements on units by the library's functions, each on an ordinary, an edge and a
//! refused case. A function here does nothing, and its contract is the rows.
#![tactic(auto, unfolding(c_tree::specs::Opened::meaning_opened))]

ghost use Rattle.std.specs.Prelude.{◌≡◌, [], ◌∷◌, ◌++◌, pos, negsuc, codes, None, Some, Ok, true, false, replicate};
ghost use Rattle.c_tree.specs.declared.outcome.CValue.TheVariants.{Number, Pointer, Null};
ghost use Rattle.c_tree.specs.declared.outcome.CFault.TheVariants as fault;
ghost use Rattle.c_tree.specs.Faults.{failing};
ghost use Rattle.c_tree.specs.World.{Io};
ghost use Rattle.c_tree.specs.Builtins as builtin;
ghost use Rattle.c_rows.specs.TransferNames as transfer;
ghost use Rattle.c_rows.specs.LibraryRows.{text, number, size, start_of, gives, ends_with, leaves, calling, item, on_unit, on_ended_unit, on_internal, on_drawer, records_after, blanks_after, start_output, end_output, on_input, end_input, five_numbers, position_after, open_list, open_list_asking, open_file, close_9, on_9, on_6};

/// `s_wsle`, `do_lio` and `e_wsle` on a unit.
pub fn listed_output()
    ensures items { records_after (pos 6) (on_unit (start_output ∷ item 2 4 4 4 ∷ item 3 4 6 3 ∷ item 1 5 7 4 ∷ end_output ∷ []))
        ≡ Ok (codes "  TABC 10 -5" ∷ []) }
    ensures no_item { records_after (pos 6) (on_unit (start_output ∷ end_output ∷ [])) ≡ Ok (codes " " ∷ []) }
    ensures not_written_before_its_end { records_after (pos 6) (on_unit (start_output ∷ item 3 4 9 79 ∷ [])) ≡ Ok [] }
    ensures full_record { records_after (pos 6) (on_unit (start_output ∷ item 3 4 9 79 ∷ item 3 4 6 1 ∷ [])) ≡ Ok ((32 ∷ replicate 79 65) ∷ []) }
    ensures start_in_a_transfer { gives (on_unit (start_output ∷ start_output ∷ [])) ≡ failing fault.Library }
    ensures end_outside { gives (on_unit (end_output ∷ [])) ≡ failing fault.Library }
    ensures item_outside { gives (on_unit (item 1 4 4 4 ∷ [])) ≡ failing fault.Library }
    ensures end_twice { gives (on_unit (start_output ∷ end_output ∷ end_output ∷ [])) ≡ failing fault.Library }
    ensures another_kind { gives (on_unit (start_output ∷ item 4 4 4 4 ∷ [])) ≡ failing fault.Library }
    ensures negative_count { gives (on_unit (start_output ∷ item 1 8 4 4 ∷ [])) ≡ failing fault.Library }
    ensures another_length { gives (on_unit (start_output ∷ item 1 4 4 3 ∷ [])) ≡ failing fault.Library }
    ensures past_the_items { gives (on_unit (start_output ∷ item 1 5 4 4 ∷ [])) ≡ failing fault.Outside }
    ensures another_list { gives (on_unit (calling transfer.s_wsle (start_of 1 ∷ []) ∷ [])) ≡ failing fault.Kind }
    ensures past_the_end_asked { gives (on_ended_unit 1 (start_output ∷ end_output ∷ [])) ≡ Ok (Some (pos 9)) }
    ensures past_the_end_not_asked { ends_with (on_ended_unit 0 (start_output ∷ end_output ∷ [])) ≡ Ok (Some (Io (pos 9))) }
{}

/// `s_wsli`, `do_lio` and `e_wsli` on an internal file.
pub fn internal_output()
    ensures padded { leaves 7 (on_internal 6 2 (item 1 2 3 4 ∷ calling transfer.e_wsli [] ∷ []))
        ≡ Ok (Some (text (codes "  42  ......"))) }
    ensures too_long { gives (on_internal 3 2 (item 1 2 3 4 ∷ calling transfer.e_wsli [] ∷ [])) ≡ Ok (Some (pos 5)) }
    ensures used_up { gives (on_internal 6 0 (item 1 2 3 4 ∷ calling transfer.e_wsli [] ∷ [])) ≡ Ok (Some (negsuc 0)) }
    ensures end_of_another_kind { gives (on_internal 6 2 (calling transfer.e_wsle [] ∷ [])) ≡ failing fault.Library }
{}

/// `f_open` and `f_clos`
pub fn opening_and_closing()
    ensures opens { gives (on_drawer (open_list 9 (start_of 1) 3 Null) (open_file ∷ [])) ≡ Ok (Some (pos 0)) }
    ensures holds { records_after (pos 9) (on_drawer (open_list 9 (start_of 1) 3 Null) (open_file ∷ [])) ≡ Ok (codes "R" ∷ []) }
    ensures blanks_null { blanks_after (pos 9) (on_drawer (open_list 9 (start_of 1) 3 Null) (open_file ∷ [])) ≡ Ok (Some false) }
    ensures blanks_zero { blanks_after (pos 9) (on_drawer (open_list 9 (start_of 1) 3 (start_of 2)) (open_file ∷ [])) ≡ Ok (Some true) }
    ensures no_name { gives (on_drawer (open_list 9 Null 0 Null) (open_file ∷ [])) ≡ Ok (Some (pos 0)) }
    ensures taken { gives (on_drawer (open_list 6 (start_of 1) 3 Null) (open_file ∷ [])) ≡ Ok (Some (pos 8)) }
    ensures not_offered { gives (on_drawer (open_list 9 (start_of 2) 4 Null) (open_file ∷ [])) ≡ Ok (Some (pos 7)) }
    ensures not_offered_not_asked { ends_with (on_drawer (open_list_asking 0 9 (start_of 2) 4 Null) (open_file ∷ [])) ≡ Ok (Some (Io (pos 7))) }
    ensures number_for_the_name { gives (on_drawer (open_list 9 (size 5) 3 Null) (open_file ∷ [])) ≡ failing fault.Kind }
    ensures closes { blanks_after (pos 9) (on_drawer (open_list 9 (start_of 1) 3 Null) (open_file ∷ close_9 ∷ [])) ≡ Ok None }
    ensures closed_already { gives (on_drawer (open_list 9 (start_of 1) 3 Null) (close_9 ∷ [])) ≡ Ok (Some (pos 0)) }
{}

/// `f_back`, `f_rew` and `f_end`
pub fn positions()
    ensures ended { gives (on_drawer (open_list 9 (start_of 1) 3 Null) (open_file ∷ on_9 builtin.f_end ∷ [])) ≡ Ok (Some (pos 0)) }
    ensures cut { records_after (pos 9) (on_drawer (open_list 9 (start_of 1) 3 Null) (open_file ∷ on_9 builtin.f_end ∷ []))
        ≡ Ok [] }
    ensures ended_twice { gives (on_drawer (open_list 9 (start_of 1) 3 Null) (open_file ∷ on_9 builtin.f_end ∷ on_9 builtin.f_end ∷ [])) ≡ Ok (Some (pos 9)) }
    ensures back { gives (on_drawer (open_list 9 (start_of 1) 3 Null) (open_file ∷ on_9 builtin.f_end ∷ on_9 builtin.f_back ∷ on_9 builtin.f_end ∷ [])) ≡ Ok (Some (pos 0)) }
    ensures rewound { gives (on_drawer (open_list 9 (start_of 1) 3 Null) (open_file ∷ on_9 builtin.f_end ∷ on_9 builtin.f_rew ∷ on_9 builtin.f_end ∷ [])) ≡ Ok (Some (pos 0)) }
    ensures not_connected { gives (on_drawer (open_list 9 (start_of 1) 3 Null) (on_9 builtin.f_back ∷ [])) ≡ Ok (Some (pos 6)) }
    ensures connected { gives (on_drawer (open_list 9 (start_of 1) 3 Null) (on_6 builtin.f_back ∷ [])) ≡ Ok (Some (pos 0)) }
    ensures another_list { gives (on_drawer (open_list 9 (start_of 1) 3 Null) (calling builtin.f_rew (start_of 3 ∷ []) ∷ [])) ≡ failing fault.Kind }
    ensures open_of_another_list { gives (on_drawer (open_list 9 (start_of 1) 3 Null) (calling builtin.f_open (start_of 3 ∷ []) ∷ [])) ≡ failing fault.Kind }
    ensures close_of_another_list { gives (on_drawer (open_list 9 (start_of 1) 3 Null) (calling builtin.f_clos (start_of 4 ∷ []) ∷ [])) ≡ failing fault.Kind }
    ensures through_null { gives (on_drawer (open_list 9 (start_of 1) 3 Null) (calling builtin.f_back (Null ∷ []) ∷ [])) ≡ failing fault.Outside }
    ensures in_a_transfer { gives (on_unit (start_output ∷ calling builtin.f_rew (start_of 0 ∷ []) ∷ [])) ≡ failing fault.Library }
{}

/// `s_rsle`, `do_lio` and `e_rsle` on a unit.
pub fn listed_input()
    ensures repeats_and_nulls { leaves 6 (on_input (codes "3*7,," ∷ codes "/" ∷ []) (item 1 5 6 4 ∷ end_input ∷ [])) ≡ Ok (Some (five_numbers (pos 7) (pos 7) (pos 7) (pos 11) (pos 12))) }
    ensures slash_is_read { position_after (pos 5) (on_input (codes "3*7,," ∷ codes "/" ∷ codes "1" ∷ []) (item 1 5 6 4 ∷ end_input ∷ [])) ≡ Ok (Some 2) }
    ensures slash_in_the_second_record { leaves 6 (on_input (codes "1" ∷ codes "/" ∷ codes "5" ∷ []) (item 1 5 6 4 ∷ end_input ∷ [])) ≡ Ok (Some (five_numbers (pos 1) (pos 9) (pos 10) (pos 11) (pos 12))) }
    ensures rest_is_left { position_after (pos 5) (on_input (codes "1 2 3" ∷ codes "4" ∷ []) (item 1 4 6 4 ∷ end_input ∷ [])) ≡ Ok (Some 1) }
    ensures next_record { leaves 6 (on_input (codes "1 2" ∷ codes "3,4" ∷ codes "-5" ∷ []) (item 1 5 6 4 ∷ end_input ∷ [])) ≡ Ok (Some (five_numbers (pos 1) (pos 2) (pos 3) (pos 4) (negsuc 4))) }
    ensures logical { leaves 7 (on_input (codes ".true." ∷ []) (item 2 4 7 4 ∷ end_input ∷ [])) ≡ Ok (Some (number (pos 1))) }
    ensures text_padded { leaves 8 (on_input (codes "'AB'" ∷ []) (item 3 4 8 5 ∷ end_input ∷ [])) ≡ Ok (Some (text (codes "AB   "))) }
    ensures no_integer { gives (on_input (codes "X" ∷ []) (item 1 4 6 4 ∷ [])) ≡ Ok (Some (pos 1)) }
    ensures too_large { gives (on_input (codes "2147483648" ∷ []) (item 1 4 6 4 ∷ [])) ≡ Ok (Some (pos 3)) }
    ensures records_end { gives (on_input (codes "1" ∷ []) (item 1 5 6 4 ∷ [])) ≡ Ok (Some (negsuc 0)) }
    ensures earlier_items_kept { leaves 6 (on_input (codes "1" ∷ []) (item 1 5 6 4 ∷ [])) ≡ Ok (Some (five_numbers (pos 1) (pos 9) (pos 10) (pos 11) (pos 12))) }
    ensures no_record { gives (on_input [] []) ≡ Ok (Some (negsuc 0)) }
    ensures too_long { gives (on_input (replicate 1025 32 ∷ []) []) ≡ Ok (Some (pos 5)) }
    ensures another_end { gives (on_input (codes "1" ∷ []) (calling transfer.e_wsle [] ∷ [])) ≡ failing fault.Library }
{}
