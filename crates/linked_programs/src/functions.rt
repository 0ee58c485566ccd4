//! Functions (C89, 3.7.1).

use c_tree::expression::Text;
use c_tree::types::{ParameterType, ResultType};
use linked_terms::LinkedItem;
use plain_data::Items;
use run_bytes::ObjectKind;

/// A function.
#[derive(Drop)]
pub struct LinkedFunction {
    /// Its name.
    pub name: Text,
    /// What it gives its caller.
    pub result: ResultType,
    /// The types of its parameters, from the left.
    pub parameters: Items<ParameterType>,
    /// The number of the first object of its frame: its parameters, and then its automatic objects.
    pub frame: usize,
    /// The objects of its frame as a call makes them.
    pub fresh: Items<ObjectKind>,
    /// The items of its body, one for each step.
    pub code: Items<LinkedItem>,
}
