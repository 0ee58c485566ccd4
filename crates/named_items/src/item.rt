//! Flat items (C89, 3.6).

use c_tree::expression::{CExpr, Text};
use plain_data::Items;

/// The function that a call names.
#[derive(Drop)]
pub struct Callee {
    /// Whether it is called through a parameter that points to a function.
    pub through: bool,
    /// The function's name, or the parameter's.
    pub name: Text,
}

/// A `case` of a switch, with the position of its jump.
#[derive(Clone, Copy)]
pub struct Case {
    /// The number, from 0 to 2147483647.
    pub number: i32,
    /// The position of the jump.
    pub position: usize,
}

/// One flat item of a function, by names.
#[derive(Drop)]
pub enum Item {
    /// `lvalue = expr;`
    Assign(CExpr, CExpr),
    /// A test, with the positions where it goes on if it holds and if it does not.
    Branch(CExpr, usize, usize),
    /// A `switch`, with its cases and the position where it goes on if there is none.
    Select(CExpr, Items<Case>, usize),
    /// A jump to a position.
    Jump(usize),
    /// `name(..);` or `(*name)(..);`, a call of a function with its arguments.
    Call(Callee, Items<CExpr>),
    /// `lvalue = name(..);` or `lvalue = (*name)(..);`, a call of a function with its arguments, whose value is stored.
    SetCall(CExpr, Callee, Items<CExpr>),
    /// `return;` or `return expr;`
    Return(Option<CExpr>),
    /// `;`
    Nothing,
}
