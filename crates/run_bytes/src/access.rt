//! By what type a place is read or stored, and what objects hold (C89, 3.2.2.1 and 3.3.4).

use c_tree::outcome::CValue;
use c_tree::types::ListType;

/// What a field of a list holds.
#[derive(Clone, Copy, Debug, PartialEq, Eq)]
pub enum FieldType {
    /// A number.
    Number,
    /// A pointer to a text.
    Text,
}

/// What accesses through a held pointer are to.
#[derive(Clone, Copy, Debug, PartialEq, Eq)]
pub enum PointedType {
    /// Numbers, in four bytes each.
    Number,
    /// Plain `char`.
    Char,
}

/// By what type a place is read or stored.
#[derive(Clone, Copy, Debug, PartialEq, Eq)]
pub enum AccessType {
    /// A number, in four bytes.
    Number,
    /// A plain `char`, whose values are outside the subset.
    Char,
    /// An `unsigned char`.
    Byte,
    /// A list of the library, of which only fields are read and stored.
    List(ListType),
    /// A field of a list.
    Field(FieldType),
    /// A pointer that a parameter or an element of an `address` array holds.
    Pointer(PointedType),
    /// A function that a parameter holds.
    Function,
    /// No object.
    Nothing,
}

/// A value with the type of accesses through it.
#[derive(Clone, Copy, Debug, PartialEq, Eq)]
pub struct TypedValue {
    /// The value.
    pub value: CValue,
    /// By what type a pointer's place is read or stored.
    pub through: AccessType,
}

/// How an object starts.
#[derive(Clone, Copy, Debug, PartialEq, Eq)]
pub enum ObjectKind {
    /// So many bytes: zero bytes where they are set.
    Bytes {
        /// How many.
        len: usize,
        /// Whether they are set; those of an automatic object are not.
        set: bool,
    },
    /// So many values that are not set.
    Values {
        /// How many.
        len: usize,
        /// The type of each, or of the list whose fields they are.
        holds: AccessType,
    },
}
