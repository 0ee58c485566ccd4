//! What lowering answers.

use lowered_tree::Pure;
use plain_data::Items;
use std::alloc::AllocError;
use thiserror::Error;

/// A lowered value, and the first temporary that is free behind its steps.
#[derive(Drop)]
pub struct Lowered {
    pub value: Pure,
    pub free: usize,
}

/// Lowered operands, and the first temporary that is free behind their steps.
#[derive(Drop)]
pub struct Operands {
    pub values: Items<Pure>,
    pub free: usize,
}

/// Why an expression is not lowered.
#[derive(Clone, Copy, Debug, PartialEq, Eq, Drop, Error)]
pub enum LowerError {
    /// It has a form that is not lowered.
    #[error("an expression of a form that is not lowered")]
    NotLowered,
    /// Memory has run out.
    #[error("out of memory")]
    NoMemory,
}

impl From<AllocError> for LowerError {
    fn from(_: AllocError) -> LowerError {
        LowerError::NoMemory
    }
}
