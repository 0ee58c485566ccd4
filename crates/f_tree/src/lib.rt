//! FORTRAN 77 as data: the trees of files, units, statements and expressions, the rows by which a
//! file is refused, and, in `specs/`, what a set of files means.
#![tactic(auto)]

pub mod expressions;
pub mod names;
pub mod refusals;
pub mod statements;
pub mod units;

pub use expressions::{BinaryOp, Expr, Text};
pub use names::{Basic, Class, Length, Options};
pub use refusals::{Fail, Kind, Refusal};
pub use statements::{
    ArrayDeclarator, AuxiliaryKind, Body, CommonGroup, ConstantDefinition, Control, ControlValue,
    ControlWord, DataGroup, DataValue, Declarator, Dimension, Direction, DummyArgument,
    EquivalenceGroup, ImplicitGroup, LengthSpec, LetterRange, ListItem, LoopControl, SavedItem,
    Stmt, TypeSpec, UnitKind, UpperBound,
};
pub use units::{File, FileSet, Part, Unit};
