//! Objects of declarations, each on its own.

ghost use Rattle.std.specs.Prelude.{◌≡◌, ◌++◌, ◌∷◌, [], ℕ, map, option_to_list, IfOk, OnOk};
ghost use Rattle.c_tree.specs.Declarations as tree;
ghost use Rattle.c_tree.specs.Drafts.{Scope};
ghost use Rattle.c_tree.specs.Linking.{objects_of, strings_of};
ghost use Rattle.expression_linker.specs.NamesInScope.{scope_of};
ghost use Rattle.expression_linker.specs.StringsSeen.{texts};
ghost use Rattle.linked_programs.specs.LinkedPrograms.{object_of};
ghost use Rattle.run_bytes.specs.Accesses.{object_at_first};

use c_tree::declaration::{CField, CLocal};
use expression_linker::{NameScope, put_string};
use linked_programs::LinkedObject;
use object_linker::{list_image, number_image, numbers_image, text_image};
use run_bytes::{AccessType, ObjectKind, PointedType};
use std::alloc::{AllocError, Global};

/// The object of a declaration, if it lasts for the whole run, where the first of its strings has this number.
pub fn static_object(
    alloc: Global,
    scope: &NameScope<'_>,
    first: usize,
    local: &CLocal,
) -> Result<Option<LinkedObject>, AllocError>
    ensures { IfOk result (λ made. map object_of (option_to_list made) ≡ objects_of (scope_of scope.now) first (tree.declared_statics (local.now ∷ []))) }
{
    match local {
        CLocal::StaticNumber(_, _, value) => Ok(Some(number_image(alloc, *value)?)),
        CLocal::StaticNumbers(_, _, count, image) => Ok(Some(numbers_image(alloc, *count, image)?)),
        CLocal::StaticChars(_, size, text) => Ok(Some(text_image(alloc, *size, text)?)),
        CLocal::StaticList(of, _, fields) => {
            let list = list_image(alloc, scope, first, *of, fields.as_slice())?;
            Ok(Some(list))
        }
        _ => Ok(None),
    }
}

/// The object of a declaration, if each call makes it anew.
pub fn automatic_object(local: &CLocal) -> Option<ObjectKind>
    ensures { (scope : Scope) (first : ℕ) → map object_at_first (option_to_list result) ≡ objects_of scope first (tree.declared_automatics (local.now ∷ [])) }
{
    match local {
        CLocal::Number(_, _) => Some(ObjectKind::Bytes { len: 4, set: false }),
        CLocal::Numbers(_, _, count) => Some(ObjectKind::Bytes {
            len: 4 * *count as usize,
            set: false,
        }),
        CLocal::Chars(_, size) => Some(ObjectKind::Bytes {
            len: *size as usize,
            set: false,
        }),
        CLocal::Addresses(_, count) => Some(ObjectKind::Values {
            len: *count as usize,
            holds: AccessType::Pointer(PointedType::Char),
        }),
        _ => None,
    }
}

/// Puts the string of a field, if it is one, behind others.
fn put_field_string<'a>(out: &mut Vec<&'a [u8]>, field: &'a CField) -> Result<(), AllocError>
    ensures { OnOk result (texts out.new.items ≡ texts out.old.items ++ tree.field_strings (field.now ∷ [])) }
{
    match field {
        CField::Str(bytes) => put_string(out, bytes.as_slice()),
        _ => Ok(()),
    }
}

/// Puts the strings of fields behind others.
#[tactic(auto, using(crate::proofs::FieldLaws::field_laws, std::proofs::lemmas::Grind::common_steps))]
fn put_field_strings<'a>(out: &mut Vec<&'a [u8]>, fields: &'a [CField]) -> Result<(), AllocError>
    ensures { OnOk result (texts out.new.items ≡ texts out.old.items ++ tree.field_strings fields.now) }
{
    for field in fields {
        put_field_string(out, field)?;
    }
    Ok(())
}

/// Puts the strings to which the list of a declaration points, if it makes one, behind others.
#[tactic(auto, using(crate::proofs::FieldLaws::list_laws, std::proofs::lemmas::Grind::common_steps))]
pub fn put_list_strings<'a>(out: &mut Vec<&'a [u8]>, local: &'a CLocal) -> Result<(), AllocError>
    ensures { OnOk result (texts out.new.items ≡ texts out.old.items ++ strings_of (tree.declared_statics (local.now ∷ []))) }
{
    match local {
        CLocal::StaticList(_, _, fields) => put_field_strings(out, fields.as_slice()),
        _ => Ok(()),
    }
}
