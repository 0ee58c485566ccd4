//! Each fault by its ways, each in a program of its own, with the number of the function that it names. A
//! function here does nothing, and its contract is the rows.
#![tactic(auto, unfolding(c_tree::specs::Opened::meaning_opened))]

ghost use Rattle.c_tree.specs.declared.outcome.CFault.TheVariants as fault;
ghost use Rattle.c_rows.specs.FaultPrograms.{FaultsIn, least_negated, least_magnitude, least_remainder, least_quotient, great_product, small_difference, counted_too_far, zero_remainder, unset_byte, unset_address, through_null, stored_through_null, between_numbers, moved_before, moved_past, byte_past, number_for_a_pointer, pointer_for_a_condition, pointer_for_a_case, pointer_negated, two_pointers_added, pointer_subtracted, number_compared_with_a_pointer, pointers_in_order, pointer_for_an_index, address_of_a_sum, stored_in_a_sum, stored_in_a_function, field_of_a_number, list_as_a_number, address_as_a_number, unset_address_as_a_number, parameter_as_a_number, pointer_returned, function_plus_a_number, function_through_a_pointer, number_cast, too_few_arguments, number_for_a_pointer_argument, pointer_for_a_length_argument, function_for_a_pointer_argument, library_argument, value_of_an_end, value_of_a_bare_return, returned_nothing, calls_back, negative_text_length, item_outside, end_in_a_function};

/// `Overflow` and `ZeroDivide`
pub fn numbers_out_of_range()
    ensures least_negated_faults { FaultsIn least_negated fault.Overflow 0 }
    ensures least_magnitude_faults { FaultsIn least_magnitude fault.Overflow 0 }
    ensures least_remainder_faults { FaultsIn least_remainder fault.Overflow 0 }
    ensures least_quotient_faults { FaultsIn least_quotient fault.Overflow 0 }
    ensures great_product_faults { FaultsIn great_product fault.Overflow 0 }
    ensures small_difference_faults { FaultsIn small_difference fault.Overflow 0 }
    ensures counted_too_far_faults { FaultsIn counted_too_far fault.Overflow 0 }
    ensures zero_remainder_faults { FaultsIn zero_remainder fault.ZeroDivide 0 }
{}

/// `Unset` and `Outside`
pub fn places_and_bytes()
    ensures unset_byte_faults { FaultsIn unset_byte fault.Unset 0 }
    ensures unset_address_faults { FaultsIn unset_address fault.Unset 0 }
    ensures through_null_faults { FaultsIn through_null fault.Outside 0 }
    ensures stored_through_null_faults { FaultsIn stored_through_null fault.Outside 0 }
    ensures between_numbers_faults { FaultsIn between_numbers fault.Outside 0 }
    ensures moved_before_faults { FaultsIn moved_before fault.Outside 0 }
    ensures moved_past_faults { FaultsIn moved_past fault.Outside 0 }
    ensures byte_past_faults { FaultsIn byte_past fault.Outside 0 }
{}

/// `Kind`
pub fn kinds()
    ensures number_for_a_pointer_faults { FaultsIn number_for_a_pointer fault.Kind 0 }
    ensures pointer_for_a_condition_faults { FaultsIn pointer_for_a_condition fault.Kind 0 }
    ensures pointer_for_a_case_faults { FaultsIn pointer_for_a_case fault.Kind 0 }
    ensures pointer_negated_faults { FaultsIn pointer_negated fault.Kind 0 }
    ensures two_pointers_added_faults { FaultsIn two_pointers_added fault.Kind 0 }
    ensures pointer_subtracted_faults { FaultsIn pointer_subtracted fault.Kind 0 }
    ensures number_compared_with_a_pointer_faults { FaultsIn number_compared_with_a_pointer fault.Kind 0 }
    ensures pointers_in_order_faults { FaultsIn pointers_in_order fault.Kind 0 }
    ensures pointer_for_an_index_faults { FaultsIn pointer_for_an_index fault.Kind 0 }
    ensures address_of_a_sum_faults { FaultsIn address_of_a_sum fault.Kind 0 }
    ensures stored_in_a_sum_faults { FaultsIn stored_in_a_sum fault.Kind 0 }
    ensures stored_in_a_function_faults { FaultsIn stored_in_a_function fault.Kind 1 }
    ensures field_of_a_number_faults { FaultsIn field_of_a_number fault.Kind 0 }
    ensures list_as_a_number_faults { FaultsIn list_as_a_number fault.Kind 0 }
    ensures address_as_a_number_faults { FaultsIn address_as_a_number fault.Kind 0 }
    ensures unset_address_as_a_number_faults { FaultsIn unset_address_as_a_number fault.Kind 0 }
    ensures parameter_as_a_number_faults { FaultsIn parameter_as_a_number fault.Kind 0 }
    ensures pointer_returned_faults { FaultsIn pointer_returned fault.Kind 0 }
    ensures function_plus_a_number_faults { FaultsIn function_plus_a_number fault.Kind 1 }
    ensures function_through_a_pointer_faults { FaultsIn function_through_a_pointer fault.Kind 1 }
    ensures number_cast_faults { FaultsIn number_cast fault.Kind 0 }
{}

/// `Disagree`, `Active` and `Library`
pub fn calls_and_order()
    ensures too_few_arguments_faults { FaultsIn too_few_arguments fault.Disagree 1 }
    ensures number_for_a_pointer_argument_faults { FaultsIn number_for_a_pointer_argument fault.Disagree 1 }
    ensures pointer_for_a_length_argument_faults { FaultsIn pointer_for_a_length_argument fault.Disagree 1 }
    ensures function_for_a_pointer_argument_faults { FaultsIn function_for_a_pointer_argument fault.Disagree 2 }
    ensures library_argument_faults { FaultsIn library_argument fault.Disagree 0 }
    ensures value_of_an_end_faults { FaultsIn value_of_an_end fault.Disagree 0 }
    ensures value_of_a_bare_return_faults { FaultsIn value_of_a_bare_return fault.Disagree 0 }
    ensures returned_nothing_faults { FaultsIn returned_nothing fault.Disagree 0 }
    ensures calls_back_faults { FaultsIn calls_back fault.Active 0 }
    ensures negative_text_length_faults { FaultsIn negative_text_length fault.Library 0 }
    ensures item_outside_faults { FaultsIn item_outside fault.Library 0 }
    ensures end_in_a_function_faults { FaultsIn end_in_a_function fault.Library 0 }
{}
