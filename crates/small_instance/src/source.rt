//! The source language: units with two dummies over one block of shared cells.

/// A cell that a statement names: one of the block, by number, or what a dummy is bound to.
#[derive(Clone, Copy)]
pub enum Place {
    Common(usize),
    First,
    Second,
}

/// A number that a statement uses.
#[derive(Clone, Copy)]
pub enum Operand {
    Constant(usize),
    Of(Place),
}

/// What a dummy of a called unit is bound to: a cell of the caller, or a fresh cell with a value.
#[derive(Clone, Copy)]
pub enum Argument {
    ByReference(Place),
    ByValue(Operand),
}

/// A statement. Statements are numbered from 0.
#[derive(Clone, Copy)]
pub enum Statement {
    /// the place becomes the sum
    Set(Place, Operand, Operand),
    /// The place becomes the sum of the operand, valued first, and of what unit `.2` answers; it is
    /// called by its second name where `.3` is true.
    SetCalling(Place, Operand, u32, bool, Argument, Argument),
    /// goes to a statement where the place holds 0
    Unless(Place, usize),
    GoTo(usize),
    /// answers the caller; where there is none the run ends
    Give(Operand),
    /// ends the run
    Stop,
}

/// A unit. Called by its first name it begins at statement 0, by its second at statement `second`.
#[derive(Drop)]
pub struct Unit {
    pub second: usize,
    pub body: Vec<Statement>,
}
