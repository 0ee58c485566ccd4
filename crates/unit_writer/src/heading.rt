//! What is said of a program unit by its head, and of the procedures of the set.

use c_tree::types::{ParameterType, ResultType};
use lowered_tree::Pure;

/// What a program unit is. ANSI X3.9-1978, section 2.4.
#[derive(Clone, Copy, Debug, PartialEq, Eq)]
pub enum UnitRole {
    /// A main program.
    Main,
    /// A subroutine.
    Subroutine,
    /// An external function.
    Function,
}

/// A dummy argument that is no alternate return. ANSI X3.9-1978, section 15.9.
#[derive(Drop)]
pub struct Dummy<'a> {
    /// Its name.
    pub name: &'a [u8],
    /// The type of its parameter in C.
    pub parameter: ParameterType,
}

/// Which bound of a dimension is kept.
#[derive(Clone, Copy, Debug, PartialEq, Eq)]
pub enum BoundKind {
    /// The lower one.
    Lower,
    /// How many elements it has, by both.
    Size,
}

/// What a procedure keeps of a dimension of a dummy array when it begins. ANSI X3.9-1978, sections 5.1.1, 5.1.2 and 5.5.1.
#[derive(Drop)]
pub struct KeptBound<'a> {
    /// The name of the array.
    pub dummy: &'a [u8],
    /// The place of the dimension, from 0.
    pub place: usize,
    /// Which bound it is.
    pub kind: BoundKind,
    /// The value that is kept.
    pub value: Pure,
}

/// The head of a program unit.
#[derive(Drop)]
pub struct Heading<'a> {
    /// What the unit is.
    pub role: UnitRole,
    /// Its name.
    pub name: &'a [u8],
    /// Its dummy arguments, in their order.
    pub dummies: Vec<Dummy<'a>>,
    /// What it keeps of its dummy arrays, in the order in which it does so.
    pub bounds: Vec<KeptBound<'a>>,
}

/// What the C function of a procedure gives and takes. C89, 3.5.4.3.
#[derive(Drop)]
pub struct Procedure {
    /// What it gives its caller.
    pub result: ResultType,
    /// The types of its parameters, from the left.
    pub parameters: Vec<ParameterType>,
}
