//! What is known of flat items besides the items.

ghost use Rattle.std.specs.Prelude.{◌≡◌, option_copied};
ghost use Rattle.named_items.specs.Layouts.{layout_of};

use c_tree::expression::Text;

/// What is known of the items, by their positions. What a table does not have is not there.
#[derive(Drop)]
pub struct Layout {
    /// The label before the item.
    pub labels: Vec<Option<Text>>,
    /// Whether the item is the jump at the end of an arm.
    pub arms: Vec<bool>,
    /// How many items the turn of a loop has whose variable is first set by the item.
    pub loops: Vec<Option<usize>>,
}

impl Layout {
    /// The label before the item at a position.
    pub fn label(&self, position: usize) -> Option<&[u8]>
        ensures { option_copied result ≡ (layout_of self.now).label position }
    {
        match self.labels.get(position) {
            Some(Some(name)) => Some(name.as_slice()),
            _ => None,
        }
    }

    /// Whether the item at a position is the jump at the end of an arm.
    pub fn ends_arm(&self, position: usize) -> bool
        ensures { result ≡ (layout_of self.now).ends_arm position }
    {
        match self.arms.get(position) {
            Some(ends) => *ends,
            None => false,
        }
    }

    /// How many items the turn of the loop has whose variable is first set by the item at a position.
    pub fn turn(&self, position: usize) -> Option<usize>
        ensures { result ≡ (layout_of self.now).loop position }
    {
        match self.loops.get(position) {
            Some(size) => *size,
            None => None,
        }
    }
}
