//! Transfers under a format by the library's functions, each on an ordinary, an edge and a refused case.
//! A function here does nothing, and its contract is the rows.
#![tactic(auto, unfolding(c_tree::specs::Opened::meaning_opened))]

ghost use Rattle.std.specs.Prelude.{◌≡◌, [], ◌∷◌, ◌++◌, pos, negsuc, codes, None, Some, Ok, replicate};
ghost use Rattle.c_tree.specs.declared.outcome.CValue.TheVariants.{Number, Null};
ghost use Rattle.c_tree.specs.declared.outcome.CFault.TheVariants as fault;
ghost use Rattle.c_tree.specs.Faults.{failing};
ghost use Rattle.c_tree.specs.Objects.{bytes_of_number};
ghost use Rattle.c_tree.specs.World.{Io};
ghost use Rattle.c_tree.specs.Builtins as builtin;
ghost use Rattle.c_rows.specs.TransferNames as transfer;
ghost use Rattle.c_rows.specs.LibraryRows.{text, number, size, start_of, gives, ends_with, leaves, calling, records_after, position_after};
ghost use Rattle.c_rows.specs.FormattedRows.{formatted, a_number, both_numbers, a_logical, a_text, writing_by, writing, end_writing, reading_on, reading, end_reading, zero_blanks_units, filling, filling_from_itself, fetching, fetching_listed, end_filling, end_fetching, end_fetching_listed, listed_numbers, starting, starting_inside, an_internal_list, a_unit_list, calls_alone, reading_asking};

/// `s_wsfe`, `do_fio` and `e_wsfe`
pub fn formatted_output()
    ensures fields { records_after (pos 6) (writing (codes "(I3,1X,L2,1X,A5)") (a_number ∷ a_logical ∷ a_text ∷ end_writing ∷ [])) ≡ Ok (codes "  7  T   ABC" ∷ []) }
    ensures goes_on_at_the_start { records_after (pos 6) (writing (codes "(I3)") (both_numbers ∷ end_writing ∷ [])) ≡ Ok (codes "  7" ∷ codes "-12" ∷ []) }
    ensures written_once_complete { records_after (pos 6) (writing (codes "(I3)") (both_numbers ∷ [])) ≡ Ok (codes "  7" ∷ []) }
    ensures ends_at_the_colon { records_after (pos 6) (writing (codes "(i2, ' x' : ' y')") (a_number ∷ end_writing ∷ [])) ≡ Ok (codes " 7 x" ∷ []) }
    ensures too_narrow { records_after (pos 6) (writing (codes "(2I2)") (both_numbers ∷ end_writing ∷ [])) ≡ Ok (codes " 7**" ∷ []) }
    ensures no_item { records_after (pos 6) (writing (codes "()") (end_writing ∷ [])) ≡ Ok ([] ∷ []) }
    ensures format_kept_from_the_start { gives (writing (codes "(I3)rest of the object") (a_number ∷ end_writing ∷ [])) ≡ Ok (Some (pos 0)) }
{}

/// The numbers that formatted output gives, and its faults.
pub fn refused_output()
    ensures no_descriptor { gives (writing (codes "('x')") (a_number ∷ [])) ≡ Ok (Some (pos 4)) }
    ensures another_length { gives (writing (codes "(I3)") (a_text ∷ [])) ≡ Ok (Some (pos 4)) }
    ensures past_the_columns { gives (writing (codes "(T1024,I3)") (a_number ∷ [])) ≡ Ok (Some (pos 5)) }
    ensures not_connected { gives (writing_by 9 1 (start_of 1) (codes "(I3)") []) ≡ Ok (Some (pos 6)) }
    ensures no_format { gives (writing (codes "(I3,,I3)") []) ≡ Ok (Some (pos 10)) }
    ensures format_too_long { gives (writing (codes "(" ++ replicate 2047 32 ++ codes ")") []) ≡ Ok (Some (pos 10)) }
    ensures longest_format { gives (writing (codes "(" ++ replicate 2046 32 ++ codes ")") []) ≡ Ok (Some (pos 0)) }
    ensures not_asked { ends_with (writing_by 6 0 (start_of 1) (codes "(I3,,I3)") []) ≡ Ok (Some (Io (pos 10))) }
    ensures format_ends_early { gives (writing (codes "(I3") []) ≡ failing fault.Outside }
    ensures null_format { gives (writing_by 6 1 Null (codes "(I3)") []) ≡ failing fault.Outside }
    ensures number_for_the_format { gives (writing_by 6 1 (size 5) (codes "(I3)") []) ≡ failing fault.Kind }
    ensures item_of_another_layout { gives (writing (codes "(I3)") (listed_numbers 2 ∷ [])) ≡ failing fault.Library }
    ensures end_of_another_layout { gives (writing (codes "(I3)") (calling transfer.e_wsle [] ∷ [])) ≡ failing fault.Library }
    ensures end_of_the_other_direction { gives (writing (codes "(I3)") (calling transfer.e_rsfe [] ∷ [])) ≡ failing fault.Library }
    ensures negative_length { gives (writing (codes "(I3)") (calling builtin.do_fio (start_of 2 ∷ start_of 4 ∷ Number (negsuc 0) ∷ []) ∷ [])) ≡ failing fault.Library }
    ensures past_the_items { gives (writing (codes "(I3)") (formatted 3 5 4 ∷ [])) ≡ failing fault.Outside }
{}

/// `s_rsfe`, `do_fio` and `e_rsfe`
pub fn formatted_input()
    ensures fields { leaves 4 (reading (codes "  5 -6" ∷ []) (codes "(I3,I3)") (both_numbers ∷ end_reading ∷ [])) ≡ Ok (Some (text (bytes_of_number (pos 5) ++ bytes_of_number (negsuc 5)))) }
    ensures next_record { leaves 4 (reading (codes "1" ∷ codes "2" ∷ []) (codes "(I2)") (both_numbers ∷ end_reading ∷ [])) ≡ Ok (Some (text (bytes_of_number (pos 1) ++ bytes_of_number (pos 2)))) }
    ensures logical { leaves 5 (reading (codes " .FALSE." ∷ []) (codes "(L8)") (a_logical ∷ end_reading ∷ [])) ≡ Ok (Some (number (pos 0))) }
    ensures text_padded { leaves 6 (reading (codes "XYZ" ∷ []) (codes "(A2)") (a_text ∷ end_reading ∷ [])) ≡ Ok (Some (text (codes "XY "))) }
    ensures blanks_null { leaves 4 (reading (codes "1 2" ∷ []) (codes "(I3)") (a_number ∷ end_reading ∷ [])) ≡ Ok (Some (text (bytes_of_number (pos 12) ++ bytes_of_number (negsuc 11)))) }
    ensures blanks_zeros_by_the_format { leaves 4 (reading (codes "1 2" ∷ []) (codes "(BZ,I3)") (a_number ∷ end_reading ∷ [])) ≡ Ok (Some (text (bytes_of_number (pos 102) ++ bytes_of_number (negsuc 11)))) }
    ensures blanks_zeros_by_the_unit { leaves 4 (reading_on (zero_blanks_units (codes "1 2" ∷ [])) (codes "(I3)") (a_number ∷ end_reading ∷ [])) ≡ Ok (Some (text (bytes_of_number (pos 102) ++ bytes_of_number (negsuc 11)))) }
    ensures first_record_also_without_items { position_after (pos 5) (reading (codes "1" ∷ codes "2" ∷ []) (codes "(I3)") (end_reading ∷ [])) ≡ Ok (Some 1) }
    ensures slash_at_the_end_reads { position_after (pos 5) (reading (codes "1" ∷ codes "2" ∷ codes "3" ∷ []) (codes "(I3/)") (a_number ∷ end_reading ∷ [])) ≡ Ok (Some 2) }
    ensures records_end { gives (reading (codes "1" ∷ []) (codes "(I3)") (both_numbers ∷ [])) ≡ Ok (Some (negsuc 0)) }
    ensures earlier_items_kept { leaves 4 (reading (codes "1" ∷ []) (codes "(I3)") (both_numbers ∷ [])) ≡ Ok (Some (text (bytes_of_number (pos 1) ++ bytes_of_number (negsuc 11)))) }
    ensures no_record { gives (reading [] (codes "(I3)") []) ≡ Ok (Some (negsuc 0)) }
    ensures no_integer { gives (reading (codes "X" ∷ []) (codes "(I3)") (a_number ∷ [])) ≡ Ok (Some (pos 1)) }
    ensures no_logical { gives (reading (codes "X" ∷ []) (codes "(L3)") (a_logical ∷ [])) ≡ Ok (Some (pos 2)) }
    ensures too_large { gives (reading (codes "2147483648" ∷ []) (codes "(I10)") (a_number ∷ [])) ≡ Ok (Some (pos 3)) }
    ensures another_length { gives (reading (codes "1" ∷ []) (codes "(I3)") (a_text ∷ [])) ≡ Ok (Some (pos 4)) }
    ensures record_too_long { gives (reading (replicate 1025 32 ∷ []) (codes "(I3)") []) ≡ Ok (Some (pos 5)) }
    ensures text_in_the_format { gives (reading (codes "1" ∷ []) (codes "('x',I3)") (a_number ∷ [])) ≡ Ok (Some (pos 10)) }
    ensures another_end { gives (reading (codes "1" ∷ []) (codes "(I3)") (calling transfer.e_rsfi [] ∷ [])) ≡ failing fault.Library }
{}

/// `s_wsfi`, `s_rsfi` and `s_rsli` with their items and ends.
pub fn internal_files()
    ensures written { leaves 7 (filling 6 2 (codes "............") (codes "(I3)") (both_numbers ∷ end_filling ∷ [])) ≡ Ok (Some (text (codes "  7   -12   "))) }
    ensures overlapping { leaves 7 filling_from_itself ≡ Ok (Some (text (codes "uvuvuvuv"))) }
    ensures too_short { gives (filling 2 2 (codes "....") (codes "(I3)") (a_number ∷ [])) ≡ Ok (Some (pos 5)) }
    ensures used_up { gives (filling 6 1 (codes "......") (codes "(I3)") (both_numbers ∷ [])) ≡ Ok (Some (negsuc 0)) }
    ensures read { leaves 4 (fetching 3 2 (codes " 5  -6") (codes "(I3)") (both_numbers ∷ end_fetching ∷ [])) ≡ Ok (Some (text (bytes_of_number (pos 5) ++ bytes_of_number (negsuc 5)))) }
    ensures read_up { gives (fetching 3 1 (codes " 5  -6") (codes "(I3)") (both_numbers ∷ [])) ≡ Ok (Some (negsuc 0)) }
    ensures past_the_object { gives (fetching 3 2 (codes " 5 ") (codes "(I3)") (both_numbers ∷ [])) ≡ failing fault.Outside }
    ensures listed { leaves 4 (fetching_listed 3 2 (codes "1,2/ 9") (listed_numbers 3 ∷ end_fetching_listed ∷ [])) ≡ Ok (Some (text (bytes_of_number (pos 1) ++ bytes_of_number (pos 2)))) }
    ensures listed_slash { leaves 4 (fetching_listed 3 2 (codes " 1 / 9") (listed_numbers 3 ∷ end_fetching_listed ∷ [])) ≡ Ok (Some (text (bytes_of_number (pos 1) ++ bytes_of_number (negsuc 11)))) }
    ensures listed_end { gives (fetching_listed 3 1 (codes " 1 / 9") (listed_numbers 3 ∷ [])) ≡ Ok (Some (negsuc 0)) }
    ensures end_of_a_unit { gives (fetching_listed 3 1 (codes " 1 / 9") (calling transfer.e_rsle [] ∷ [])) ≡ failing fault.Library }
{}

/// Each start takes its own list, and stands outside every transfer.
pub fn starts()
    ensures internal_list_for_wsfe { gives (starting transfer.s_wsfe an_internal_list) ≡ failing fault.Kind }
    ensures internal_list_for_rsfe { gives (starting transfer.s_rsfe an_internal_list) ≡ failing fault.Kind }
    ensures internal_list_for_wsle { gives (starting transfer.s_wsle an_internal_list) ≡ failing fault.Kind }
    ensures internal_list_for_rsle { gives (starting transfer.s_rsle an_internal_list) ≡ failing fault.Kind }
    ensures unit_list_for_wsfi { gives (starting transfer.s_wsfi a_unit_list) ≡ failing fault.Kind }
    ensures unit_list_for_rsfi { gives (starting transfer.s_rsfi a_unit_list) ≡ failing fault.Kind }
    ensures unit_list_for_wsli { gives (starting transfer.s_wsli a_unit_list) ≡ failing fault.Kind }
    ensures unit_list_for_rsli { gives (starting transfer.s_rsli a_unit_list) ≡ failing fault.Kind }
    ensures wsfe_inside { gives (starting_inside transfer.s_wsfe) ≡ failing fault.Library }
    ensures rsfe_inside { gives (starting_inside transfer.s_rsfe) ≡ failing fault.Library }
    ensures wsle_inside { gives (starting_inside transfer.s_wsle) ≡ failing fault.Library }
    ensures rsle_inside { gives (starting_inside transfer.s_rsle) ≡ failing fault.Library }
    ensures wsfi_inside { gives (starting_inside transfer.s_wsfi) ≡ failing fault.Library }
    ensures rsfi_inside { gives (starting_inside transfer.s_rsfi) ≡ failing fault.Library }
    ensures wsli_inside { gives (starting_inside transfer.s_wsli) ≡ failing fault.Library }
    ensures rsli_inside { gives (starting_inside transfer.s_rsli) ≡ failing fault.Library }
    ensures open_inside { gives (starting_inside builtin.f_open) ≡ failing fault.Library }
    ensures close_inside { gives (starting_inside builtin.f_clos) ≡ failing fault.Library }
    ensures back_inside { gives (starting_inside builtin.f_back) ≡ failing fault.Library }
    ensures endfile_inside { gives (starting_inside builtin.f_end) ≡ failing fault.Library }
{}

/// Items and ends stand inside a transfer.
pub fn outside_every_transfer()
    ensures fio { gives (calls_alone (a_number ∷ [])) ≡ failing fault.Library }
    ensures lio { gives (calls_alone (listed_numbers 2 ∷ [])) ≡ failing fault.Library }
    ensures wsfe { gives (calls_alone (calling transfer.e_wsfe [] ∷ [])) ≡ failing fault.Library }
    ensures rsfe { gives (calls_alone (calling transfer.e_rsfe [] ∷ [])) ≡ failing fault.Library }
    ensures wsle { gives (calls_alone (calling transfer.e_wsle [] ∷ [])) ≡ failing fault.Library }
    ensures rsle { gives (calls_alone (calling transfer.e_rsle [] ∷ [])) ≡ failing fault.Library }
    ensures wsfi { gives (calls_alone (calling transfer.e_wsfi [] ∷ [])) ≡ failing fault.Library }
    ensures rsfi { gives (calls_alone (calling transfer.e_rsfi [] ∷ [])) ≡ failing fault.Library }
    ensures wsli { gives (calls_alone (calling transfer.e_wsli [] ∷ [])) ≡ failing fault.Library }
    ensures rsli { gives (calls_alone (calling transfer.e_rsli [] ∷ [])) ≡ failing fault.Library }
{}

/// A number other than 0 ends the transfer, and the run where the list does not ask for it.
pub fn numbers_given()
    ensures no_item_follows { gives (writing (codes "('x')") (a_number ∷ a_number ∷ [])) ≡ failing fault.Library }
    ensures no_end_follows { gives (reading (codes "X" ∷ []) (codes "(I3)") (a_number ∷ end_reading ∷ [])) ≡ failing fault.Library }
    ensures error_not_asked { ends_with (reading_asking 0 1 (codes "X" ∷ []) (a_number ∷ [])) ≡ Ok (Some (Io (pos 1))) }
    ensures end_not_asked { ends_with (reading_asking 1 0 [] []) ≡ Ok (Some (Io (negsuc 0))) }
    ensures error_asked_alone { gives (reading_asking 1 0 (codes "X" ∷ []) (a_number ∷ [])) ≡ Ok (Some (pos 1)) }
    ensures end_asked_alone { gives (reading_asking 0 1 [] []) ≡ Ok (Some (negsuc 0)) }
{}
