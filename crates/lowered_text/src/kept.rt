//! What is known before a step of the temporaries.

use f_tree::Basic;

/// What a temporary keeps.
#[derive(Clone, Copy, Debug, PartialEq, Eq)]
pub struct Kept {
    /// Its number from 0.
    pub temporary: usize,
    /// The type of its value. Section 4.1.
    pub basic: Basic,
}
