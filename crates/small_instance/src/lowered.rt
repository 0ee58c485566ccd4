//! The middle language: it keeps the source's cells, and has temporaries and explicit steps.
use crate::source::Place;

/// A number that a step uses.
#[derive(Clone, Copy)]
pub enum Atom {
    Constant(usize),
    Load(Place),
    /// one of the two temporaries: false for the saved operand, true for the answer
    Temporary(bool),
}

/// Where a call's argument stands: in a cell of the caller, or in one of the two slots for values.
#[derive(Clone, Copy)]
pub enum Passed {
    Cell(Place),
    Slot,
}

/// A step. Steps are numbered from 0.
#[derive(Clone, Copy)]
pub enum Step {
    /// goes to a step where the unit was called by its second name
    Select(usize),
    /// keeps a number in a temporary
    Keep(bool, Atom),
    /// puts a number into a slot: false for the first argument, true for the second
    Fill(bool, Atom),
    Pass,
    /// the place becomes the sum
    Put(Place, Atom, Atom),
    /// goes to a step where the place holds 0
    Unless(Place, usize),
    Jump(usize),
    /// calls a unit, by its second name where `.1` is true; the answer goes to temporary true
    Call(u32, bool, Passed, Passed),
    Back(Atom),
    Halt,
}
