//! Calls of the library's functions, each on an ordinary, an edge and a refused case. A function here
//! does nothing, and its contract is the rows.
#![tactic(auto, unfolding(c_tree::specs::Opened::meaning_opened))]

ghost use Rattle.std.specs.Prelude.{◌≡◌, [], ◌∷◌, ◌++◌, pos, negsuc, codes, slice_get, None, Some, Ok, Err};
ghost use Rattle.c_tree.specs.declared.outcome.CValue.TheVariants.{Number, Pointer, Null};
ghost use Rattle.c_tree.specs.declared.outcome.CFault.TheVariants as fault;
ghost use Rattle.c_tree.specs.Faults.{failing};
ghost use Rattle.c_tree.specs.World.{Plain, Stop, Io};
ghost use Rattle.c_tree.specs.Builtins as builtin;
ghost use Rattle.c_tree.specs.Builtins.{builtin_names};
ghost use Rattle.c_tree.specs.Objects.{Bytes, bytes_of_number};
ghost use Rattle.c_tree.specs.Access.{ToNumber, ToPointer};
ghost use Rattle.c_tree.specs.Library.{library};
ghost use Rattle.c_rows.specs.LibraryRows.{text, number, start_of, size, memory, of_numbers, of_texts, pieces_into, addresses, control_list, gives, ends_with, leaves, of_number, ended_name, reporting, reported, pieces_by, held, five_addresses, starting_at, reports_in_a_program};
ghost use Rattle.c_rows.specs.CPrograms.{Ends};

/// `pow_ii`
pub fn powers()
    ensures ordinary { gives (of_numbers builtin.pow_ii (pos 2) (pos 10)) ≡ Ok (Some (pos 1024)) }
    ensures to_zero { gives (of_numbers builtin.pow_ii (pos 0) (pos 0)) ≡ Ok (Some (pos 1)) }
    ensures inverse { gives (of_numbers builtin.pow_ii (pos 2) (negsuc 0)) ≡ Ok (Some (pos 0)) }
    ensures sign { gives (of_numbers builtin.pow_ii (negsuc 0) (negsuc 2)) ≡ Ok (Some (negsuc 0)) }
    ensures least { gives (of_numbers builtin.pow_ii (negsuc 1) (pos 31)) ≡ Ok (Some (negsuc 2147483647)) }
    ensures overflow { gives (of_numbers builtin.pow_ii (pos 2) (pos 31)) ≡ failing fault.Overflow }
    ensures divisor { gives (of_numbers builtin.pow_ii (pos 0) (negsuc 0)) ≡ failing fault.ZeroDivide }
{}

/// `i_sign` and `i_dim`
pub fn signs_and_differences()
    ensures sign { gives (of_numbers builtin.i_sign (pos 7) (negsuc 0)) ≡ Ok (Some (negsuc 6)) }
    ensures sign_of_zero { gives (of_numbers builtin.i_sign (negsuc 6) (pos 0)) ≡ Ok (Some (pos 7)) }
    ensures sign_of_least { gives (of_numbers builtin.i_sign (negsuc 2147483647) (pos 1)) ≡ failing fault.Overflow }
    ensures difference { gives (of_numbers builtin.i_dim (pos 7) (pos 3)) ≡ Ok (Some (pos 4)) }
    ensures no_difference { gives (of_numbers builtin.i_dim (pos 3) (pos 7)) ≡ Ok (Some (pos 0)) }
    ensures too_great { gives (of_numbers builtin.i_dim (pos 2147483647) (negsuc 0)) ≡ failing fault.Overflow }
    ensures unset { gives (library builtin.i_dim (memory []) (start_of 0 ∷ start_of 1 ∷ [])) ≡ failing fault.Outside }
{}

/// `s_cmp`, `i_indx` and the functions that compare texts.
pub fn comparisons()
    ensures equal { gives (of_texts builtin.s_cmp (codes "AB") 2 (codes "AB  ") 4) ≡ Ok (Some (pos 0)) }
    ensures less { gives (of_texts builtin.s_cmp (codes "AB") 2 (codes "AC") 2) ≡ Ok (Some (negsuc 0)) }
    ensures greater { gives (of_texts builtin.s_cmp (codes "AB!") 3 (codes "AB") 2) ≡ Ok (Some (pos 1)) }
    ensures past_the_end { gives (of_texts builtin.s_cmp (codes "AB") 3 (codes "AB") 2) ≡ failing fault.Outside }
    ensures index { gives (of_texts builtin.i_indx (codes "ABCABC") 6 (codes "CA") 2) ≡ Ok (Some (pos 3)) }
    ensures no_index { gives (of_texts builtin.i_indx (codes "ABC") 3 (codes "ABCA") 4) ≡ Ok (Some (pos 0)) }
    ensures not_below { gives (of_texts builtin.l_ge (codes "A") 1 (codes "A ") 2) ≡ Ok (Some (pos 1)) }
    ensures above { gives (of_texts builtin.l_gt (codes "A") 1 (codes "A ") 2) ≡ Ok (Some (pos 0)) }
    ensures not_above { gives (of_texts builtin.l_le (codes "B") 1 (codes "A") 1) ≡ Ok (Some (pos 0)) }
    ensures no_such_length { gives (of_texts builtin.i_indx (codes "A") 1 (codes "A") 2) ≡ failing fault.Outside }
    ensures past_the_left_end { gives (of_texts builtin.l_ge (codes "A") 2 (codes "A") 1) ≡ failing fault.Outside }
    ensures below { gives (of_texts builtin.l_lt (codes "A") 1 (codes "B") 1) ≡ Ok (Some (pos 1)) }
{}

/// `l_ge`, `l_gt`, `l_le` and `l_lt`, each on texts in order, on texts that are equal when the shorter is padded, and past the end of
/// the object.
pub fn order_of_texts()
    ensures ge_ordinary { gives (of_texts builtin.l_ge (codes "B") 1 (codes "A") 1) ≡ Ok (Some (pos 1)) }
    ensures gt_ordinary { gives (of_texts builtin.l_gt (codes "B") 1 (codes "A") 1) ≡ Ok (Some (pos 1)) }
    ensures gt_refused { gives (of_texts builtin.l_gt (codes "A") 2 (codes "A") 1) ≡ failing fault.Outside }
    ensures le_edge { gives (of_texts builtin.l_le (codes "A") 1 (codes "A ") 2) ≡ Ok (Some (pos 1)) }
    ensures le_refused { gives (of_texts builtin.l_le (codes "A") 2 (codes "A") 1) ≡ failing fault.Outside }
    ensures lt_edge { gives (of_texts builtin.l_lt (codes "A") 1 (codes "A ") 2) ≡ Ok (Some (pos 0)) }
    ensures lt_refused { gives (of_texts builtin.l_lt (codes "A") 2 (codes "A") 1) ≡ failing fault.Outside }
{}

/// `s_copy`
pub fn copies()
    ensures padded { leaves 0 (of_texts builtin.s_copy (codes ".....") 5 (codes "AB") 2) ≡ Ok (Some (text (codes "AB   "))) }
    ensures cut { leaves 0 (of_texts builtin.s_copy (codes ".....") 3 (codes "ABCD") 4)
        ≡ Ok (Some (text (codes "ABC.."))) }
    ensures overlapping { leaves 0 (library builtin.s_copy (memory (text (codes "ABCD") ∷ [])) (Pointer 0 1 ∷ start_of 0 ∷ size 3 ∷ size 3 ∷ []))
        ≡ Ok (Some (text (codes "AABC"))) }
    ensures negative_length { leaves 0 (library builtin.s_copy (memory (text (codes "ABCD") ∷ [])) (start_of 0 ∷ start_of 0 ∷ Number (negsuc 0) ∷ size 3 ∷ []))
        ≡ failing fault.Library }
    ensures past_the_end { leaves 0 (of_texts builtin.s_copy (codes "..") 3 (codes "AB") 2) ≡ failing fault.Outside }
    ensures through_null { leaves 0 (library builtin.s_copy (memory (text (codes "ABCD") ∷ [])) (start_of 0 ∷ Null ∷ size 1 ∷ size 1 ∷ []))
        ≡ failing fault.Outside }
{}

/// `s_cat`
pub fn concatenations()
    ensures padded { leaves 0 (pieces_into 6 2) ≡ Ok (Some (text (codes "ABXYZ "))) }
    ensures cut { leaves 0 (pieces_into 4 2) ≡ Ok (Some (text (codes "ABXY.."))) }
    ensures no_pieces { leaves 0 (pieces_into 3 0) ≡ Ok (Some (text (codes "   ..."))) }
    ensures fetched_first { leaves 0 (library builtin.s_cat (memory (text (codes "ABCD") ∷ addresses (Pointer 0 2 ∷ start_of 0 ∷ []) ∷ text (bytes_of_number (pos 2) ++ bytes_of_number (pos 2)) ∷ number (pos 2) ∷ [])) (start_of 0 ∷ start_of 1 ∷ start_of 2 ∷ start_of 3 ∷ size 4 ∷ []))
        ≡ Ok (Some (text (codes "CDAB"))) }
    ensures negative_count { leaves 0 (library builtin.s_cat (memory (text (codes "ABCD") ∷ number (negsuc 0) ∷ [])) (start_of 0 ∷ start_of 0 ∷ start_of 0 ∷ start_of 1 ∷ size 4 ∷ [])) ≡ failing fault.Library }
    ensures address_not_set { leaves 0 (pieces_into 6 3) ≡ failing fault.Unset }
{}

/// `s_stop`
pub fn stops()
    ensures with_text { ends_with (library builtin.s_stop (memory (text (codes "77") ∷ [])) (start_of 0 ∷ size 2 ∷ []))
        ≡ Ok (Some (Stop (codes "77"))) }
    ensures without_text { ends_with (library builtin.s_stop (memory (text (codes "77") ∷ [])) (start_of 0 ∷ size 0 ∷ []))
        ≡ Ok (Some Plain) }
    ensures negative_length { ends_with (library builtin.s_stop (memory (text (codes "77") ∷ [])) (start_of 0 ∷ Number (negsuc 1) ∷ []))
        ≡ failing fault.Library }
{}

/// `i_or`, `i_and`, `i_eor` and `i_not`, on the 32 bits of two's complement.
pub fn bits()
    ensures or { gives (of_numbers builtin.i_or (pos 5) (pos 2)) ≡ Ok (Some (pos 7)) }
    ensures or_of_the_least { gives (of_numbers builtin.i_or (negsuc 2147483647) (pos 1)) ≡ Ok (Some (negsuc 2147483646)) }
    ensures or_through_null { gives (library builtin.i_or (memory (number (pos 1) ∷ [])) (start_of 0 ∷ Null ∷ [])) ≡ failing fault.Outside }
    ensures and { gives (of_numbers builtin.i_and (pos 6) (pos 3)) ≡ Ok (Some (pos 2)) }
    ensures and_of_signs { gives (of_numbers builtin.i_and (negsuc 0) (negsuc 2147483647)) ≡ Ok (Some (negsuc 2147483647)) }
    ensures and_through_null { gives (library builtin.i_and (memory (number (pos 1) ∷ [])) (start_of 0 ∷ Null ∷ [])) ≡ failing fault.Outside }
    ensures exclusive_or { gives (of_numbers builtin.i_eor (pos 6) (pos 3)) ≡ Ok (Some (pos 5)) }
    ensures exclusive_or_of_signs { gives (of_numbers builtin.i_eor (negsuc 0) (pos 2147483647)) ≡ Ok (Some (negsuc 2147483647)) }
    ensures exclusive_or_through_null { gives (library builtin.i_eor (memory (number (pos 1) ∷ [])) (start_of 0 ∷ Null ∷ [])) ≡ failing fault.Outside }
    ensures complement { gives (of_number builtin.i_not (pos 0)) ≡ Ok (Some (negsuc 0)) }
    ensures complement_of_the_least { gives (of_number builtin.i_not (negsuc 2147483647)) ≡ Ok (Some (pos 2147483647)) }
    ensures complement_not_set { gives (library builtin.i_not (memory (Bytes (None ∷ None ∷ None ∷ None ∷ []) ∷ [])) (start_of 0 ∷ [])) ≡ failing fault.Unset }
{}

/// `i_shft`: from 32 to the right to 32 to the left, with zeros.
pub fn shifts()
    ensures left { gives (of_numbers builtin.i_shft (pos 1) (pos 31)) ≡ Ok (Some (negsuc 2147483647)) }
    ensures right { gives (of_numbers builtin.i_shft (negsuc 0) (negsuc 30)) ≡ Ok (Some (pos 1)) }
    ensures by_none { gives (of_numbers builtin.i_shft (negsuc 6) (pos 0)) ≡ Ok (Some (negsuc 6)) }
    ensures all_to_the_left { gives (of_numbers builtin.i_shft (negsuc 0) (pos 32)) ≡ Ok (Some (pos 0)) }
    ensures all_to_the_right { gives (of_numbers builtin.i_shft (negsuc 0) (negsuc 31)) ≡ Ok (Some (pos 0)) }
    ensures too_far_to_the_left { gives (of_numbers builtin.i_shft (pos 1) (pos 33)) ≡ failing fault.Library }
    ensures too_far_to_the_right { gives (of_numbers builtin.i_shft (pos 1) (negsuc 32)) ≡ failing fault.Library }
{}

/// `b_test`, `b_set` and `b_clr`: the positions are 0 to 31, 0 the lowest.
pub fn single_bits()
    ensures tested { gives (of_numbers builtin.b_test (pos 4) (pos 2)) ≡ Ok (Some (pos 1)) }
    ensures tested_clear { gives (of_numbers builtin.b_test (pos 4) (pos 1)) ≡ Ok (Some (pos 0)) }
    ensures tested_sign { gives (of_numbers builtin.b_test (negsuc 0) (pos 31)) ≡ Ok (Some (pos 1)) }
    ensures tested_above { gives (of_numbers builtin.b_test (negsuc 0) (pos 32)) ≡ failing fault.Library }
    ensures set { gives (of_numbers builtin.b_set (pos 0) (pos 3)) ≡ Ok (Some (pos 8)) }
    ensures set_sign { gives (of_numbers builtin.b_set (pos 0) (pos 31)) ≡ Ok (Some (negsuc 2147483647)) }
    ensures set_below { gives (of_numbers builtin.b_set (pos 0) (negsuc 0)) ≡ failing fault.Library }
    ensures cleared { gives (of_numbers builtin.b_clr (pos 9) (pos 0)) ≡ Ok (Some (pos 8)) }
    ensures cleared_sign { gives (of_numbers builtin.b_clr (negsuc 0) (pos 31)) ≡ Ok (Some (pos 2147483647)) }
    ensures cleared_above { gives (of_numbers builtin.b_clr (pos 9) (pos 32)) ≡ failing fault.Library }
{}

/// `s_rnge`: the run ends by the report of its names up to their zero bytes.
pub fn reports()
    ensures ordinary { ends_with (reporting (ended_name (codes "ia")) (ended_name (codes "sub")) (start_of 0) (start_of 1)) ≡ Ok (Some (reported (codes "ia") (codes "sub"))) }
    ensures up_to_the_first_zero { ends_with (reporting (text (97 ∷ 0 ∷ 98 ∷ 0 ∷ [])) (ended_name (codes "MAIN__")) (start_of 0) (start_of 1)) ≡ Ok (Some (reported (codes "a") (codes "MAIN__"))) }
    ensures empty_names { ends_with (reporting (ended_name (codes "x")) (ended_name []) (Pointer 0 1) (start_of 1)) ≡ Ok (Some (reported [] [])) }
    ensures of_a_program { Ends reports_in_a_program 1 (reported (codes "ia") (codes "MAIN__")) [] }
    ensures null_variable { ends_with (reporting (ended_name (codes "x")) (ended_name (codes "s")) Null (start_of 1)) ≡ failing fault.Library }
    ensures null_unit { ends_with (reporting (ended_name (codes "x")) (ended_name (codes "s")) (start_of 0) Null) ≡ failing fault.Library }
    ensures endless_variable { ends_with (reporting (text (codes "x")) (ended_name (codes "s")) (start_of 0) (start_of 1)) ≡ failing fault.Library }
    ensures endless_unit { ends_with (reporting (ended_name (codes "x")) (text (codes "s")) (start_of 0) (start_of 1)) ≡ failing fault.Library }
    ensures not_set { ends_with (reporting (Bytes (None ∷ Some 0 ∷ [])) (ended_name (codes "s")) (start_of 0) (start_of 1)) ≡ failing fault.Library }
{}

/// Objects that hold values are told apart by their type, and not by how many values they have.
pub fn held_values()
    ensures addresses { leaves 0 (pieces_by (addresses (Pointer 0 2 ∷ start_of 0 ∷ []))) ≡ Ok (Some (text (codes "CDAB"))) }
    ensures number_pointers { leaves 0 (pieces_by (held (ToPointer ToNumber) (Pointer 0 2 ∷ start_of 0 ∷ []))) ≡ failing fault.Kind }
    ensures list_for_addresses { leaves 0 (pieces_by (control_list 0 6 0)) ≡ failing fault.Kind }
    ensures bytes_for_addresses { leaves 0 (pieces_by (number (pos 0))) ≡ failing fault.Kind }
    ensures past_the_addresses { leaves 0 (pieces_by (addresses (Pointer 0 2 ∷ []))) ≡ failing fault.Outside }
    ensures list { gives (starting_at (control_list 0 6 0) 0) ≡ Ok (Some (pos 0)) }
    ensures addresses_for_a_list { gives (starting_at five_addresses 0) ≡ failing fault.Kind }
    ensures past_the_list { gives (starting_at (control_list 0 6 0) 5) ≡ failing fault.Outside }
    ensures inside_the_list { gives (starting_at (control_list 0 6 0) 1) ≡ failing fault.Kind }
{}

/// The number of a function of the library is its place, behind those that stood there before.
pub fn numbers_of_functions()
    ensures last_of_the_earlier { slice_get builtin_names 34 ≡ Some (codes "f_end") }
    ensures first_of_the_bits { slice_get builtin_names 35 ≡ Some (codes "i_or") }
    ensures last { slice_get builtin_names 43 ≡ Some (codes "s_rnge") }
    ensures no_more { slice_get builtin_names 44 ≡ None }
{}
