//! How an item is written with those behind it, before they are.

use c_tree::expression::CExpr;
use named_items::{Head, Part};

/// How an item is written with those behind it.
#[derive(Drop)]
pub(crate) enum Plan {
    /// Nothing is built for it.
    Unwritten,
    /// A statement that is built already, with the items that belong to it: the jumps of its cases, where it is a `switch`.
    Whole(Part),
    /// An `if` whose block has so many items.
    OneArm(CExpr, usize),
    /// An `if` with an `else`, whose blocks have so many items, with a jump between them.
    TwoArms(CExpr, usize, usize),
    /// A `for` whose turn has so many items, with its growth and the jump back behind them. The test is taken already.
    Turns(Head, usize),
    /// An assignment and a `do` whose turn has so many items, with the test behind them.
    Once(CExpr, CExpr, usize),
}
