//! What is known of the statements before one: IMPLICIT statements, the names of constants, and the names that are used. Sections 3.5, 8.5
//! and 8.6.
#![tactic(auto)]

ghost use Rattle.std.specs.Prelude.{◌≡◌, ◌&&◌, ◌||◌, ◌∷◌, [], ℕ, Bool, nat_eq, OnOk, map};
ghost use Rattle.std.specs.List.{list_any};
ghost use Rattle.f_tree.specs.Values.{Bytes};
ghost use Rattle.f_tree.specs.Uses.{is_among, uses_of_body};
ghost use Rattle.f_tree.specs.declared.statements.Declarator as declarator;
ghost use Rattle.f_tree.specs.declared.statements.ConstantDefinition as constant;
ghost use Rattle.declaration_rows.specs.OrderRows as written;
ghost use Rattle.name_table.specs.Named.{names_in, IsNameSet};
ghost use Rattle.name_uses.specs.UsesSeen.{Adds, manner_in, use_of, used_in};
ghost use Rattle.statement_order.specs.BeforeSteps.{in_range, letter_typed, first_passes, constant_names, types_by, uses_as, Uses, Notes};

use crate::forms::{is_implicit, is_implicit_none};
use f_tree::{Body, ConstantDefinition, Declarator, ImplicitGroup, LetterRange, Stmt};
use name_table::NameSet;
use name_uses::{Manner, Use, add_statement_uses};
use std::alloc::{AllocError, Global};

/// What is known of the statements before one.
#[derive(Drop)]
pub struct Before<'a> {
    /// IMPLICIT NONE stands among them.
    pub has_none: bool,
    /// IMPLICIT or IMPLICIT NONE does.
    pub has_implicit: bool,
    /// The names of the constants that they define.
    pub constants: NameSet<'a>,
    /// The first letters of these names.
    pub letters: Vec<u8>,
    /// The names that they use, and do not only declare.
    pub used: NameSet<'a>,
}

/// Whether a statement is an IMPLICIT statement besides IMPLICIT NONE.
pub(crate) fn is_second_implicit(before: &Before, body: &Body) -> bool
    ensures { result ≡ (written.is_implicit body.now && (before.now.has_none || (written.is_implicit_none body.now && before.now.has_implicit))) }
{
    is_implicit(body) && (before.has_none || (is_implicit_none(body) && before.has_implicit))
}

/// Whether one of some names is declared.
fn declares_any(names: &NameSet, items: &[Declarator]) -> bool
    requires { IsNameSet names.now }
    ensures { result ≡ list_any (λ (d : declarator.Declarator). is_among d.name (names_in names.now)) items.now }
{
    for item in items {
        if names.has(item.name.as_slice()) {
            return true;
        }
    }
    false
}

/// Whether a letter is in a range.
#[tactic(auto, unfolding(crate::specs::BeforeSteps::in_range))]
fn is_in_range(letter: u8, range: LetterRange) -> bool
    ensures { result ≡ in_range letter range }
{
    range.first <= letter && letter <= range.last
}

/// Whether a letter is in one of some ranges.
fn letter_is_in(letter: u8, ranges: &[LetterRange]) -> bool
    ensures { result ≡ list_any (in_range letter) ranges.now }
{
    for range in ranges {
        if is_in_range(letter, *range) {
            return true;
        }
    }
    false
}

/// Whether the names that begin with a letter are typed.
fn types_letter(letter: u8, groups: &[ImplicitGroup]) -> bool
    ensures { result ≡ letter_typed groups.now letter }
{
    for group in groups {
        if letter_is_in(letter, group.letters.as_slice()) {
            return true;
        }
    }
    false
}

/// Whether the names that begin with one of some letters are typed.
fn types_any_letter(letters: &[u8], groups: &[ImplicitGroup]) -> bool
    ensures { result ≡ list_any (letter_typed groups.now) letters.now }
{
    for letter in letters {
        if types_letter(*letter, groups) {
            return true;
        }
    }
    false
}

/// Whether a statement types the name of a constant that is defined before it.
#[tactic(auto, using(crate::proofs::BeforeForms::types_forms))]
pub(crate) fn types_constant(before: &Before, body: &Body) -> bool
    requires { IsNameSet before.now.constants }
    ensures { result ≡ types_by (names_in before.now.constants) before.now.letters.items body.now }
{
    match body {
        Body::Declare(_, items) => declares_any(&before.constants, items.as_slice()),
        Body::Implicit(groups) => types_any_letter(before.letters.as_slice(), groups.as_slice()),
        _ => false,
    }
}

/// Whether one of some constants has been used.
fn any_used(used: &NameSet, items: &[ConstantDefinition]) -> bool
    requires { IsNameSet used.now }
    ensures { result ≡ list_any (λ (d : constant.ConstantDefinition). is_among d.name (names_in used.now)) items.now }
{
    for item in items {
        if used.has(item.name.as_slice()) {
            return true;
        }
    }
    false
}

/// Whether a statement defines a constant whose name has been used.
#[tactic(auto, using(crate::proofs::BeforeForms::defines_forms))]
pub(crate) fn defines_used(used: &NameSet, body: &Body) -> bool
    requires { IsNameSet used.now }
    ensures { result ≡ list_any (λ (x : Bytes). is_among x (names_in used.now)) (constant_names body.now) }
{
    match body {
        Body::Parameter(items) => any_used(used, items.as_slice()),
        _ => false,
    }
}

/// Whether a letter is among some.
fn has_letter(letters: &[u8], letter: u8) -> bool
    ensures { result ≡ list_any (λ c. nat_eq letter c) letters.now }
{
    for other in letters {
        if letter == *other {
            return true;
        }
    }
    false
}

/// Notes the first letter of a name.
fn note_letter(letters: &mut Vec<u8>, name: &[u8]) -> Result<(), AllocError>
    ensures { OnOk result ((p : ℕ → Bool) → list_any p letters.new.items ≡ (list_any p letters.old.items || first_passes p name.now)) }
{
    match name {
        [letter, ..] => {
            if has_letter(letters.as_slice(), *letter) {
                return Ok(());
            }
            letters.push(*letter)?;
            Ok(())
        }
        [] => Ok(()),
    }
}

/// Notes the names of constants.
fn note_constants<'a>(
    constants: &mut NameSet<'a>,
    letters: &mut Vec<u8>,
    items: &'a [ConstantDefinition],
) -> Result<(), AllocError>
    requires { IsNameSet constants.old }
    ensures names { OnOk result (Adds constants.old constants.new (map (λ (d : constant.ConstantDefinition). d.name) items.now)) }
    ensures letters { OnOk result ((p : ℕ → Bool) → list_any p letters.new.items
        ≡ (list_any p letters.old.items || list_any (first_passes p) (map (λ (d : constant.ConstantDefinition). d.name) items.now))) }
{
    for item in items {
        constants.add(item.name.as_slice())?;
        note_letter(letters, item.name.as_slice())?;
    }
    Ok(())
}

/// Whether a name is used, and not only declared.
#[tactic(auto, unfolding(declaration_rows::specs::OrderRows::is_use, name_uses::specs::UsesSeen::manner_in))]
fn is_use(manner: Manner) -> bool
    ensures { result ≡ written.is_use (manner_in manner) }
{
    match manner {
        Manner::Alone | Manner::WithList | Manner::Called => true,
        Manner::Declared => false,
    }
}

/// Notes a name that is used.
fn note_use<'a>(used: &mut NameSet<'a>, one: Use<'a>) -> Result<(), AllocError>
    requires { IsNameSet used.old }
    ensures { OnOk result (Uses used.old used.new (use_of one.entry ∷ [])) }
{
    if !is_use(one.manner) {
        return Ok(());
    }
    if used.has(one.name) {
        return Ok(());
    }
    used.add(one.name)
}

/// Notes the names that are used.
fn note_uses<'a>(used: &mut NameSet<'a>, uses: &[Use<'a>]) -> Result<(), AllocError>
    requires { IsNameSet used.old }
    ensures { OnOk result (Uses used.old used.new (used_in uses.now)) }
{
    for one in uses {
        note_use(used, *one)?;
    }
    Ok(())
}

/// Notes the names that a statement uses.
fn note_statement_uses<'a>(
    alloc: Global,
    arrays: &NameSet,
    used: &mut NameSet<'a>,
    body: &'a Body,
) -> Result<(), AllocError>
    requires arrays { IsNameSet arrays.now }
    requires used { IsNameSet used.old }
    ensures { OnOk result (Uses used.old used.new (uses_of_body (names_in arrays.now) body.now)) }
{
    let mut uses = Vec::new(alloc);
    add_statement_uses(alloc, arrays, &mut uses, body)?;
    note_uses(used, uses.as_slice())
}

/// Notes the constants that a statement defines.
fn note_statement_constants<'a>(
    constants: &mut NameSet<'a>,
    letters: &mut Vec<u8>,
    body: &'a Body,
) -> Result<(), AllocError>
    requires { IsNameSet constants.old }
    ensures names { OnOk result (Adds constants.old constants.new (constant_names body.now)) }
    ensures letters { OnOk result ((p : ℕ → Bool) → list_any p letters.new.items
        ≡ (list_any p letters.old.items || list_any (first_passes p) (constant_names body.now))) }
{
    match body {
        Body::Parameter(items) => note_constants(constants, letters, items.as_slice()),
        _ => Ok(()),
    }
}

/// Whether IMPLICIT NONE stands in a statement or before it.
fn none_stands(before: bool, body: &Body) -> bool
    ensures { result ≡ (written.is_implicit_none body.now || before) }
{
    is_implicit_none(body) || before
}

/// Whether IMPLICIT or IMPLICIT NONE stands in a statement or before it.
fn implicit_stands(before: bool, body: &Body) -> bool
    ensures { result ≡ (written.is_implicit body.now || before) }
{
    is_implicit(body) || before
}

/// Notes a statement.
pub(crate) fn note_statement<'a>(
    alloc: Global,
    arrays: &NameSet,
    before: &mut Before<'a>,
    statement: &'a Stmt,
) -> Result<(), AllocError>
    requires arrays { IsNameSet arrays.now }
    requires constants { IsNameSet before.old.constants }
    requires used { IsNameSet before.old.used }
    ensures { OnOk result (Notes (names_in arrays.now) before.old before.new statement.now) }
{
    note_statement_constants(&mut before.constants, &mut before.letters, &statement.body)?;
    note_statement_uses(alloc, arrays, &mut before.used, &statement.body)?;
    before.has_none = none_stands(before.has_none, &statement.body);
    before.has_implicit = implicit_stands(before.has_implicit, &statement.body);
    Ok(())
}
