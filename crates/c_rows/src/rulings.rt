//! Programs that tell apart readings of the C meaning. A function here does nothing, and its contract
//! is the rows.
#![tactic(auto, unfolding(c_tree::specs::Opened::meaning_opened))]

ghost use Rattle.std.specs.Prelude.{◌≡◌, [], ◌∷◌, pos, codes};
ghost use Rattle.c_tree.specs.World.{Plain};
ghost use Rattle.c_rows.specs.CPrograms.{Ends, null_by_value, functions_compared, reads_automatic_after_return, reads_automatic_at_next_call};
ghost use Rattle.c_rows.specs.FaultPrograms.{FaultsIn};
ghost use Rattle.c_tree.specs.declared.types.CastType.TheVariants as to;
ghost use Rattle.c_tree.specs.declared.expression.UnaryOp.TheVariants as prefix;
ghost use Rattle.c_tree.specs.declared.expression.BinaryOp.TheVariants as op;
ghost use Rattle.c_tree.specs.declared.expression.CExpr.TheVariants as expr;
ghost use Rattle.c_tree.specs.declared.outcome.CFault.TheVariants as fault;
ghost use Rattle.c_rows.specs.RowTexts.{no_units, whole_number, EndsPrinting, FaultsAt};
ghost use Rattle.c_rows.specs.Rulings.{prints, values, equal, zero_quotient, second_address, read, byte_pointer, null, fault_before_store, stores_answer_outside, uses_no_value, passes_null, passes_library_function, passes_number, uses_copy, calls_itself_with_a_number, sets_field, reads_field_back, stores_low_bits, reads_old_automatic};

/// Faults come in the order of operands, and the place of a store is settled before and accessed
/// after its right side.
pub fn order_of_faults()
    ensures right_side_first { FaultsAt fault_before_store 1 fault.ZeroDivide 0 }
    ensures place_not_valued { FaultsAt (values (expr.Unary prefix.Address zero_quotient)) 1 fault.Kind 0 }
    ensures left_first { FaultsAt (values (expr.Binary op.Add zero_quotient (expr.Binary op.Multiply (whole_number 2147483647) (whole_number 2)))) 1 fault.ZeroDivide 0 }
    ensures left_decides { EndsPrinting (prints 0 (expr.Binary op.And (whole_number 0) zero_quotient)) 6 (codes "  0") }
    ensures left_does_not_decide { FaultsAt (values (expr.Binary op.Or (whole_number 0) zero_quotient)) 1 fault.ZeroDivide 0 }
    ensures disagree_before_active { FaultsAt calls_itself_with_a_number 1 fault.Disagree 0 }
{}

/// The type of an access is that of the declaration or of the last cast, also through `?:`.
pub fn accesses()
    ensures low_byte_first { EndsPrinting (prints 513 (read (byte_pointer second_address))) 6 (codes "  1") }
    ensures taken_arm { EndsPrinting (prints 513 (read (expr.Choose (whole_number 1) (byte_pointer second_address) second_address))) 6 (codes "  1") }
    ensures other_arm { EndsPrinting (prints 513 (read (expr.Choose (whole_number 0) (byte_pointer second_address) second_address))) 6 (codes "  513") }
    ensures low_bits_kept { EndsPrinting stores_low_bits 6 (codes "  44") }
    ensures plain_char { FaultsAt (values (read (expr.Cast to.Chars second_address))) 1 fault.Kind 0 }
{}

/// Pointers, null and functions as values.
pub fn pointers()
    ensures number_plus_pointer { FaultsAt (values (equal (expr.Binary op.Add (whole_number 1) second_address) second_address)) 1 fault.Kind 0 }
    ensures null_moved { FaultsAt (values (equal (expr.Binary op.Add (null to.Chars) (whole_number 0)) (null to.Chars))) 1 fault.Outside 0 }
    ensures length_keeps_pointer { EndsPrinting (prints 0 (equal (expr.Cast to.Length second_address) second_address)) 6 (codes "  1") }
    ensures null_is_no_pointer { EndsPrinting (prints 0 (equal second_address (null to.Integers))) 6 (codes "  0") }
    ensures number_is_no_pointer { FaultsAt (values (equal (expr.Cast to.Chars (whole_number 1)) (null to.Chars))) 1 fault.Kind 0 }
    ensures past_the_end { FaultsAt (values (equal (expr.Binary op.Add second_address (whole_number 2)) second_address)) 1 fault.Outside 0 }
    ensures through_null { FaultsAt (values (read (null to.Integers))) 1 fault.Outside 0 }
    ensures null_by_its_value { Ends null_by_value 20 Plain (codes "  1" ∷ []) }
    ensures functions_are_compared { Ends functions_compared 20 Plain (codes "  8" ∷ []) }
{}

/// Calls: whose name a fault has, and what a parameter of function type may be.
pub fn calls()
    ensures store_of_the_answer { FaultsAt stores_answer_outside 2 fault.Outside 1 }
    ensures no_value { FaultsAt uses_no_value 3 fault.Disagree 1 }
    ensures no_library_value { FaultsAt uses_copy 1 fault.Disagree 0 }
    ensures null_function { FaultsAt passes_null 2 fault.Kind 1 }
    ensures library_function { FaultsAt passes_library_function 2 fault.Library 1 }
    ensures number_for_a_function { FaultsAt passes_number 1 fault.Disagree 0 }
    ensures automatic_of_an_earlier_call { FaultsAt reads_old_automatic 9 fault.Unset 1 }
    ensures automatic_after_its_return { Ends reads_automatic_after_return 30 Plain (codes "  7" ∷ []) }
    ensures automatic_of_another_call { FaultsIn reads_automatic_at_next_call fault.Unset 0 }
{}

/// Fields of lists.
pub fn fields()
    ensures number_in_a_text_field { FaultsAt (sets_field (codes "cifmt") (whole_number 1)) 1 fault.Kind 0 }
    ensures pointer_in_a_number_field { FaultsAt (sets_field (codes "ciunit") (null to.Chars)) 1 fault.Kind 0 }
    ensures field_of_another_list { FaultsAt (sets_field (codes "ounit") (whole_number 1)) 1 fault.Kind 0 }
    ensures read_back { EndsPrinting reads_field_back 6 (codes "  9") }
{}
