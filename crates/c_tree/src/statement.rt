//! Statements (C89, 3.6).
use crate::expression::{CCall, CExpr, Text};
use plain_data::{Boxed, Items};

/// A `case` of a switch, with the label that its `goto` names.
#[derive(Drop)]
pub struct CCase {
    /// The number, from 0 to 2147483647.
    pub number: i32,
    /// The label.
    pub label: Text,
}

/// What a `for` does after each turn.
#[derive(Drop)]
pub enum CNext {
    /// `++lvalue`
    Up(CExpr),
    /// `--lvalue`
    Down(CExpr),
    /// `lvalue += expr`
    Add(CExpr, CExpr),
}

/// A statement.
#[derive(Drop)]
pub enum CStmt {
    /// `lvalue = expr;`
    Set(CExpr, CExpr),
    /// `lvalue = call;`
    SetCall(CExpr, CCall),
    /// `call;`
    Call(CCall),
    /// `;`
    Empty,
    /// `{ .. }`
    Block(Items<CStmt>),
    /// `label: stmt`
    Label(Text, Boxed<CStmt>),
    /// `goto label;`
    Goto(Text),
    /// `return;` or `return expr;`
    Return(Option<CExpr>),
    /// `return call;`
    ReturnCall(CCall),
    /// `if (expr) block`, or with `else block` where there is a second block.
    If(CExpr, Items<CStmt>, Option<Items<CStmt>>),
    /// `switch (expr) { .. }`
    Switch(CExpr, Items<CCase>),
    /// `for (lvalue = first; test; next) block`
    For(CExpr, CExpr, CExpr, CNext, Items<CStmt>),
    /// `do block while (expr);`
    DoWhile(Items<CStmt>, CExpr),
}
