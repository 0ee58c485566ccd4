//! What a name of a field stands for (C89, 3.3.2.3).

ghost use Rattle.std.specs.Prelude.{◌≡◌, IfOk};
ghost use Rattle.linked_terms.specs.FieldNames.{name_in};

use crate::field_names::{FieldName, UnlistedName};
use crate::fields::list_field;
use plain_data::Items;
use std::alloc::{AllocError, Global};

/// The field that a name names: one of a control list, found by its name, or none of any list.
pub fn field_name(alloc: Global, name: &[u8]) -> Result<FieldName, AllocError>
    ensures { IfOk result (λ field. name_in field ≡ name.now) }
{
    match list_field(name) {
        Some(field) => Ok(FieldName::Listed(field)),
        None => {
            let text = Items::from_slice(alloc, name)?;
            Ok(FieldName::Unlisted(UnlistedName { text }))
        }
    }
}
