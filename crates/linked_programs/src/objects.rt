//! Objects as they stand at the start of a run (C89, 3.1.2.4 and 3.5.7).

use c_tree::outcome::CValue;
use c_tree::types::ListType;
use plain_data::Items;
use run_bytes::ObjectKind;

/// An object at the start of a run.
#[derive(Drop)]
pub enum LinkedObject {
    /// As all of its kind start: zero bytes, or bytes or values that are not set.
    Plain(ObjectKind),
    /// The bytes of an image or of a string, with zero bytes behind them.
    Image {
        /// How many bytes the object has at least.
        size: usize,
        /// Those that it starts with.
        bytes: Items<u8>,
    },
    /// A list of the library.
    List {
        /// Which list it is.
        holds: ListType,
        /// What each field starts with, in the order of the fields.
        fields: Items<Option<CValue>>,
    },
}
