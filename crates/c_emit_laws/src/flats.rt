//! The flat C items for lowered steps, as the contract of a call that does nothing.

ghost use Rattle.c_emit_laws.specs.EmittedFlats.{FlatsGoOn, KeptFlatsGoOn, ComputedFlatsGoOn};

/// Each lowered step that puts a number or a label at a place, tests a condition, jumps, goes back, chooses by a number, a held label or the answer of a subroutine, or does nothing,
/// and goes on, is the one C item that is emitted for it: the C function goes on at the item of the step that is next, and the store behind the step stands in its objects. So is each step that
/// keeps a number in a temporary whose object is its own, or there the value of a function of numbers that is called from the library; what the function
/// knows then is so.
pub fn flats_go_on()
    ensures steer { FlatsGoOn }
    ensures keep { KeptFlatsGoOn }
    ensures compute { ComputedFlatsGoOn }
{}
