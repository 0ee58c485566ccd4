//! Items as they are put, one behind the other.

use linked_terms::LinkedItem;
use plain_data::Items;

/// Items that stand, and the number of the next string. An item's position is its place among them.
#[derive(Drop)]
pub struct Written {
    /// The items.
    pub items: Items<LinkedItem>,
    /// The number of the next string.
    pub next: usize,
}
