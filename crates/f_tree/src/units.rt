//! Program units and files. Sections 2.4 and 3.5 of the standard, ANSI X3.9-1978.
#![tactic(auto)]

use crate::expressions::Text;
use crate::statements::{DummyArgument, Stmt, UnitKind};
use plain_data::Items;

/// A program unit. `file` is the number of its file, from 0, and `card` that of the initial card of
/// its first statement, from 1. A PROGRAM, SUBROUTINE, FUNCTION or BLOCK DATA statement that begins
/// the unit is not among its statements: the kind, the name and the dummy arguments are what it says.
#[derive(Drop)]
pub struct Unit {
    pub file: usize,
    pub card: u32,
    pub kind: UnitKind,
    pub name: Option<Text>,
    pub dummies: Items<DummyArgument>,
    pub statements: Items<Stmt>,
}

/// The statements of an included file, with the name of the file. MIL-STD-1753.
#[derive(Drop)]
pub struct Part {
    pub name: Text,
    pub statements: Items<Stmt>,
}

/// The program units of a file, in their order.
#[derive(Drop)]
pub struct File {
    pub units: Items<Unit>,
}

/// Files that are translated together, in their order.
#[derive(Drop)]
pub struct FileSet {
    pub files: Items<File>,
}
