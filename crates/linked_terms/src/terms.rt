//! Expressions (C89, 3.3), and the places that they name.

use crate::field_names::FieldName;
use c_tree::expression::{BinaryOp, Extreme, UnaryOp};
use c_tree::outcome::CValue;
use c_tree::types::CastType;
use plain_data::Boxed;
use run_bytes::AccessType;

/// A place: a pointer or null, and the type of an access there.
#[derive(Clone, Copy, Debug, PartialEq, Eq)]
pub struct LinkedPlace {
    /// Where it is.
    pub at: CValue,
    /// By what type it is read or stored.
    pub access: AccessType,
}

/// An expression.
#[derive(Drop)]
pub enum LinkedTerm {
    /// A number.
    Constant(i32),
    /// A variable or a parameter, at the start of its object.
    Variable {
        /// The number of the object.
        object: usize,
        /// By what type it is read or stored.
        access: AccessType,
    },
    /// An array or a string, whose value points to its start.
    Array {
        /// The number of the object.
        object: usize,
        /// By what type its elements are read or stored.
        access: AccessType,
    },
    /// A function, by its number.
    Routine(usize),
    /// An operator and its operand.
    Prefixed(UnaryOp, Boxed<LinkedTerm>),
    /// A cast and its operand.
    Cast(CastType, Boxed<LinkedTerm>),
    /// An operator with its left and right operands.
    Between(BinaryOp, Boxed<LinkedTerm>, Boxed<LinkedTerm>),
    /// `test ? first : second`
    Choice(Boxed<LinkedTerm>, Boxed<LinkedTerm>, Boxed<LinkedTerm>),
    /// `array[index]`
    Element(Boxed<LinkedTerm>, Boxed<LinkedTerm>),
    /// `list.name`
    Field {
        /// The list.
        list: Boxed<LinkedTerm>,
        /// The field.
        name: FieldName,
    },
    /// `sizeof(integer)`
    Size,
    /// `max(left, right)` or `min(left, right)`
    Most(Extreme, Boxed<LinkedTerm>, Boxed<LinkedTerm>),
    /// `abs(operand)`
    Magnitude(Boxed<LinkedTerm>),
}
