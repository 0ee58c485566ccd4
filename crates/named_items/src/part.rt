//! A statement and the items that belong to it.

use c_tree::expression::CExpr;
use c_tree::statement::CStmt;

/// A statement that is built for an item, and how many of the items behind it belong to the statement.
#[derive(Drop)]
pub struct Part {
    /// The statement.
    pub statement: CStmt,
    /// How many items behind the first belong to it.
    pub taken: usize,
}

/// The head of a loop, but for what is done behind each turn.
#[derive(Drop)]
pub struct Head {
    /// The variable.
    pub variable: CExpr,
    /// Its first value.
    pub first: CExpr,
    /// The test before each turn.
    pub test: CExpr,
}
