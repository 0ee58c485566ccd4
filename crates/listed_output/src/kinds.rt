//! What the items of a call are (ANSI X3.9-1978, 12.8.2).

ghost use Rattle.std.specs.Prelude.{◌≡◌, true};
ghost use Rattle.listed_output.specs.Kinds.{kind_shown, has_size};

/// What the items of a call are.
#[derive(Clone, Copy)]
pub enum ItemType {
    /// Integers, of four bytes each.
    Integer,
    /// Logicals, of four bytes each.
    Logical,
    /// Texts.
    Text,
}

/// The kind of the items of a call, their number, and the bytes of one.
#[derive(Clone, Copy)]
pub struct ItemList {
    /// What they are.
    pub kind: ItemType,
    /// How many there are.
    pub count: usize,
    /// The bytes of one, which are four unless it is a text.
    pub size: usize,
    ghost has: { has_size (kind_shown kind) size ≡ true },
}
