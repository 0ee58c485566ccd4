//! An instance of what the laws ask for, and values whose expressions are computed.

ghost use Rattle.std.specs.Prelude.{◌≡◌, Some, None, pos};
ghost use Rattle.c_emit.specs.f_tree.Values.{IsInt};
ghost use Rattle.c_emit.specs.c_image.Addresses.{Through};
ghost use Rattle.c_image_laws.specs.Example.{two_homes, three_objects};
ghost use Rattle.c_image_laws.specs.Meanings.{Means};
ghost use Rattle.c_emit.specs.Numbers.{value_term, place_term};
ghost use Rattle.c_emit.specs.Flats.{flat_of};
ghost use Rattle.c_emit_laws.specs.EmittedNumbers.{IsKnown};
ghost use Rattle.c_emit_laws.specs.Example.{its_writing, its_frame, holds_five, a_sum, its_term, writing_by, lower_bounds, sizes, array_writing, an_element, its_place, a_relation, its_test, a_power, its_call};

/// What is asked of a function is met by one, in a store that stands; and the sum of an integer that is 2 and a temporary that holds 5 is 7.
pub fn example_is_known()
    ensures known { IsKnown two_homes its_writing its_frame holds_five }
    ensures sum { Means three_objects its_term (IsInt (pos 7)) }
{}

/// A sum, an element of an array in a block whose second lower bound is told at the call, and a relation of a dummy, as they are written; and the call for a power.
pub fn examples_are_written()
    ensures sum { value_term its_writing a_sum ≡ Some its_term }
    ensures element { place_term array_writing an_element ≡ Some its_place }
    ensures relation { value_term (writing_by (Through 6) lower_bounds sizes) a_relation ≡ Some its_test }
    ensures call { flat_of its_writing (λ n. n) (λ label. None) 0 a_power ≡ Some its_call }
{}
