//! One item of a call (ANSI X3.9-1978, 12.8.2).

ghost use Rattle.std.specs.Prelude.{◌≡◌};
ghost use Rattle.c_tree.specs.TransferInput as transfers;
ghost use Rattle.edit_rules.specs.Reader as reader;
ghost use Rattle.listed_output.specs.Kinds.{kind_shown};

use c_tree::outcome::CValue;
use edit_rules::ItemKind;
use listed_output::ItemType;

/// One item: its kind, a pointer to it, and how many bytes it has.
#[derive(Clone, Copy)]
pub struct Item {
    /// What it is.
    pub kind: ItemType,
    /// Where it stands.
    pub pointer: CValue,
    /// How many bytes it has.
    pub size: usize,
}

/// The kind of an item, as a reader of records has it.
pub fn kind_read(kind: ItemType) -> ItemKind
    ensures { reader.kind_of result ≡ transfers.kind_of (kind_shown kind) }
{
    match kind {
        ItemType::Integer => ItemKind::Int,
        ItemType::Logical => ItemKind::Logical,
        ItemType::Text => ItemKind::Text,
    }
}
