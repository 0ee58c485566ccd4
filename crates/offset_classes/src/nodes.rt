//! Numbers in classes. Section 17.1.

/// An equation: the number `other` begins `by` units behind the number `one`.
#[derive(Clone, Copy)]
pub struct Equation {
    pub one: usize,
    pub other: usize,
    pub by: i64,
}

/// A number in a tree of its class: how many units it stands behind its parent. A root is its own parent.
#[derive(Clone, Copy)]
pub(crate) struct Node {
    pub parent: usize,
    pub offset: i64,
    pub rank: usize,
}

/// Where a number stands: the root of its class, and how many units behind it.
#[derive(Clone, Copy)]
pub struct Place {
    pub root: usize,
    pub offset: i64,
}

/// What equations make of numbers.
#[derive(Drop)]
pub enum Solution {
    /// The place of each number.
    Solved(Vec<Place>),
    /// The first equation that contradicts those before it, counted from 0.
    Contradicts(usize),
}
