//! Programs (C89, 3.7).

use crate::functions::LinkedFunction;
use crate::objects::LinkedObject;
use plain_data::Items;

/// A program: its functions and its objects, each by its number. Those of the library have the numbers behind the functions.
#[derive(Drop)]
pub struct LinkedProgram {
    /// The functions.
    pub functions: Items<LinkedFunction>,
    /// The objects as they stand at the start of a run.
    pub objects: Items<LinkedObject>,
}
