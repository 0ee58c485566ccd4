//! The target language: functions with frames at fixed places, and pointers.

/// A cell that an item names: one of the block, one of the function's own frame, or the one that a
/// cell of the frame points to.
#[derive(Clone, Copy)]
pub enum Spot {
    Block(usize),
    Local(usize),
    Through(usize),
}

/// A number that an item uses.
#[derive(Clone, Copy)]
pub enum Leaf {
    Literal(usize),
    Read(Spot),
}

/// An item of a function. Items are numbered from 0.
#[derive(Clone, Copy)]
pub enum Item {
    /// the spot becomes the number
    Assign(Spot, Leaf),
    /// the spot becomes the sum
    AssignSum(Spot, Leaf, Leaf),
    /// goes to an item where the spot holds 0
    IfZero(Spot, usize),
    /// goes to an item where the spot does not hold 0
    IfNot(Spot, usize),
    Goto(usize),
    Nothing,
    /// calls function `.1` with the addresses of two spots and, where it takes one, a number; the
    /// answer goes to cell `.0` of the frame
    Invoke(usize, usize, Spot, Spot, Option<usize>),
    Return(Leaf),
    Exit,
}

/// A function. Its frame is one object; its parameters are the first cells of that: two addresses,
/// and a number where `selected` is true.
#[derive(Drop)]
pub struct Function {
    pub object: usize,
    pub cells: usize,
    pub selected: bool,
    pub items: Vec<Item>,
}
