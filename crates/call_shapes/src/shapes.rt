//! What a procedure is called as, and what its arguments are. Sections 15.5, 15.6 and 15.9.

use f_tree::{Basic, Text};
use plain_data::Items;

/// What a procedure gives.
#[derive(Clone, Copy, Debug, PartialEq, Eq)]
pub enum ShapeResult {
    /// Nothing: it is called by CALL. Section 15.6.
    Subroutine,
    /// A value of a type. Section 15.5.
    Function(Basic),
}

/// What an argument is. An array and a scalar are not told apart.
#[derive(Clone, Copy, Debug, PartialEq, Eq)]
pub enum Argument {
    /// INTEGER
    Integer,
    /// LOGICAL
    Logical,
    /// CHARACTER
    Text,
    /// A procedure. Section 15.9.3.4.
    Procedure,
    /// Where an alternate return goes. Section 15.9.3.5.
    Label,
}

/// The shape of a procedure or of a call: what it gives, and its arguments in their order.
#[derive(Drop)]
pub struct Shape {
    pub result: ShapeResult,
    pub arguments: Items<Argument>,
}

/// A procedure, a line of a file of prototypes, or a call, by its FORTRAN name in lower case and its shape.
#[derive(Drop)]
pub struct NamedShape {
    pub name: Text,
    pub shape: Shape,
}
