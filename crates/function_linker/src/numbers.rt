//! The numbers of the objects that declarations make, in the order in which they are declared (C89, 3.5).

ghost use Rattle.std.specs.Prelude.{◌≡◌, ◌+◌, ◌∷◌, [], length, IfOk};
ghost use Rattle.c_tree.specs.Declarations as tree;
ghost use Rattle.c_tree.specs.Linking.{strings_of};
ghost use Rattle.function_linker.specs.NumbersBehind.{numbers_behind};

use c_tree::declaration::{CField, CLocal};
use std::alloc::AllocError;

/// The numbers of what the next declaration makes.
#[derive(Clone, Copy)]
pub(crate) struct NextNumbers {
    /// That of its object, if it lasts for the whole run.
    pub lasting: usize,
    /// That of the first of the strings to which its list points.
    pub string: usize,
    /// That of its object, if each call makes it anew.
    pub frame: usize,
}

/// How many objects that last a declaration makes.
fn static_count(local: &CLocal) -> usize
    ensures { result ≡ length (tree.declared_statics (local.now ∷ [])) }
{
    match local {
        CLocal::StaticNumber(..) => 1,
        CLocal::StaticNumbers(..) => 1,
        CLocal::StaticChars(..) => 1,
        CLocal::StaticList(..) => 1,
        _ => 0,
    }
}

/// How many objects of a call a declaration makes.
fn automatic_count(local: &CLocal) -> usize
    ensures { result ≡ length (tree.declared_automatics (local.now ∷ [])) }
{
    match local {
        CLocal::Number(..) => 1,
        CLocal::Numbers(..) => 1,
        CLocal::Chars(..) => 1,
        CLocal::Addresses(..) => 1,
        _ => 0,
    }
}

/// How many strings a field has.
fn field_string_count(field: &CField) -> usize
    ensures { result ≡ length (tree.field_strings (field.now ∷ [])) }
{
    match field {
        CField::Str(_) => 1,
        CField::Number(_) => 0,
        CField::Name(_) => 0,
    }
}

/// How many strings fields have.
#[tactic(auto, using(crate::proofs::CountLaws::count_laws, std::proofs::lemmas::Grind::common_steps))]
fn fields_string_count(fields: &[CField]) -> Result<usize, AllocError>
    ensures { IfOk result (λ count. count ≡ length (tree.field_strings fields.now)) }
{
    let mut count: usize = 0;
    for field in fields {
        count = count
            .checked_add(field_string_count(field))
            .ok_or(AllocError)?;
    }
    Ok(count)
}

/// How many strings the list of a declaration points to, if it makes one.
#[tactic(auto, using(crate::proofs::CountLaws::list_laws, std::proofs::lemmas::Grind::common_steps))]
fn string_count(local: &CLocal) -> Result<usize, AllocError>
    ensures { IfOk result (λ count. count ≡ length (strings_of (tree.declared_statics (local.now ∷ [])))) }
{
    match local {
        CLocal::StaticList(_, _, fields) => fields_string_count(fields.as_slice()),
        _ => Ok(0),
    }
}

/// A number, so many behind another.
pub(crate) fn so_many_behind(number: usize, count: usize) -> Result<usize, AllocError>
    ensures { IfOk result (λ behind. behind ≡ number + count) }
{
    number.checked_add(count).ok_or(AllocError)
}

/// The numbers of what is declared behind a declaration.
#[tactic(auto, unfolding(crate::specs::NumbersBehind::numbers_behind))]
pub(crate) fn numbers_behind_one(at: NextNumbers, local: &CLocal) -> Result<NextNumbers, AllocError>
    ensures { IfOk result (λ behind. behind ≡ numbers_behind at (local.now ∷ [])) }
{
    let lasting = so_many_behind(at.lasting, static_count(local))?;
    let string = so_many_behind(at.string, string_count(local)?)?;
    let frame = so_many_behind(at.frame, automatic_count(local))?;
    Ok(NextNumbers {
        lasting,
        string,
        frame,
    })
}

/// The numbers of what is declared behind declarations.
#[tactic(auto, using(crate::proofs::NumberLaws::number_laws, std::proofs::lemmas::Grind::common_steps))]
pub(crate) fn numbers_behind_all(
    start: NextNumbers,
    locals: &[CLocal],
) -> Result<NextNumbers, AllocError>
    ensures { IfOk result (λ behind. behind ≡ numbers_behind start locals.now) }
{
    let mut at = start;
    for local in locals {
        at = numbers_behind_one(at, local)?;
    }
    Ok(at)
}
