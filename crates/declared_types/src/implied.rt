//! The types of names by their first letters. Sections 4.1.2 and 8.5.
#![tactic(auto)]

ghost use Rattle.std.specs.Prelude.{◌≡◌, ◌++◌, OnOk, IfOk, option_map, map};
ghost use Rattle.f_tree.specs.Attributes as written;
ghost use Rattle.f_tree.specs.Attributes.{from_all, implicit_in};
ghost use Rattle.declared_types.specs.TypeTables as spec;
ghost use Rattle.declared_types.specs.TypeTables.{groups_in};

use crate::types::{DeclaredType, written_type};
use f_tree::{Basic, Body, ImplicitGroup, LetterRange, Stmt};
use std::alloc::{AllocError, Global};

/// Adds the groups of an IMPLICIT statement.
fn add_groups<'a>(
    groups: &mut Vec<&'a ImplicitGroup>,
    items: &'a [ImplicitGroup],
) -> Result<(), AllocError>
    ensures { OnOk result (groups_in groups.new.items ≡ groups_in groups.old.items ++ items.now) }
{
    for item in items {
        groups.push(item)?;
    }
    Ok(())
}

/// Adds the groups of a statement.
fn add_groups_in<'a>(groups: &mut Vec<&'a ImplicitGroup>, body: &'a Body) -> Result<(), AllocError>
    ensures { OnOk result (groups_in groups.new.items ≡ groups_in groups.old.items ++ implicit_in body.now) }
{
    match body {
        Body::Implicit(items) => add_groups(groups, items.as_slice()),
        _ => Ok(()),
    }
}

/// The groups of the IMPLICIT statements among statements.
pub(crate) fn implicit_groups<'a>(
    alloc: Global,
    statements: &'a [Stmt],
) -> Result<Vec<&'a ImplicitGroup>, AllocError>
    ensures { IfOk result (λ groups. groups_in groups.items ≡ from_all implicit_in statements.now) }
{
    let mut groups = Vec::new(alloc);
    for statement in statements {
        add_groups_in(&mut groups, &statement.body)?;
    }
    Ok(groups)
}

/// Whether a letter is in one of the ranges of a group.
#[tactic(auto, unfolding(f_tree::specs::Attributes::letter_is_in))]
fn letter_is_in(letter: u8, ranges: &[LetterRange]) -> bool
    ensures { result ≡ written.letter_is_in letter ranges.now }
{
    for range in ranges {
        if range.first <= letter && letter <= range.last {
            return true;
        }
    }
    false
}

/// The type of a letter of which no IMPLICIT statement tells: integer for the letters from I to N.
#[tactic(auto, unfolding(f_tree::specs::Attributes::by_default, crate::specs::TypeTables::plain_type, crate::specs::TypeTables::typed_of, f_tree::specs::Attributes::typed_by))]
fn by_default<'a>(letter: u8) -> Option<DeclaredType<'a>>
    ensures { option_map spec.typed_of result ≡ option_map spec.plain_type (written.by_default letter) }
{
    if b'i' <= letter && letter <= b'n' {
        return Some(DeclaredType {
            basic: Basic::Integer,
            length: None,
        });
    }
    None
}

/// The type of a letter: that of the first group that has it.
#[tactic(auto, unfolding(f_tree::specs::Attributes::by_letter))]
fn by_letter<'a>(letter: u8, groups: &[&'a ImplicitGroup]) -> Option<DeclaredType<'a>>
    ensures { option_map spec.typed_of result ≡ option_map spec.plain_type (written.by_letter letter (groups_in groups.now)) }
{
    for group in groups {
        if letter_is_in(letter, group.letters.as_slice()) {
            return Some(written_type(&group.spec));
        }
    }
    by_default(letter)
}

/// The type of a name by its first letter.
#[tactic(auto, unfolding(f_tree::specs::Attributes::implied))]
pub(crate) fn implied<'a>(groups: &[&'a ImplicitGroup], name: &[u8]) -> Option<DeclaredType<'a>>
    ensures { option_map spec.typed_of result ≡ option_map spec.plain_type (written.implied name.now (groups_in groups.now)) }
{
    match name {
        [] => None,
        [first, ..] => by_letter(*first, groups),
    }
}
