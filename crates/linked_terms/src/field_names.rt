//! The names of fields that expressions give (C89, 3.3.2.3).

ghost use Rattle.std.specs.Prelude.{◌≡◌, None, IsTrue, is_none};
ghost use Rattle.linked_terms.specs.ListFields.{all_fields, first_named};

use crate::fields::ListField;
use c_tree::expression::Text;

/// A name that is no field of a control list.
#[derive(Drop)]
pub struct UnlistedName {
    /// The name.
    pub text: Text,
    pub ghost unlisted: { IsTrue (is_none (first_named text all_fields)) },
}

/// The field that an expression names.
#[derive(Drop)]
pub enum FieldName {
    /// A field of a control list.
    Listed(ListField),
    /// A name that no control list has as a field.
    Unlisted(UnlistedName),
}
