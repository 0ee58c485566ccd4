//! Which ENTRY statements of a function share its result: where it is not of type CHARACTER, those whose names are not either; and where it is,
//! those whose names are of the same length. Sections 15.7.3 and 15.7.4.
#![tactic(auto)]

ghost use Rattle.std.specs.Prelude.{◌≡◌, IfOk};
ghost use Rattle.f_tree.specs.Lines.{is_character as is_character_written};
ghost use Rattle.name_facts.specs.GivenFacts.{AreNameFacts};
ghost use Rattle.declaration_rows.specs.NameRows.{given_names};
ghost use Rattle.declaration_rows.specs.BlockRows as written;
ghost use Rattle.block_judge.specs.BlockSteps.{TellsSharing};
ghost use Rattle.block_judge.specs.Sharing as spec;

use f_tree::{Basic, Body, Unit, UnitKind};
use name_facts::NameFacts;
use std::alloc::{AllocError, Global};

/// Whether a type is CHARACTER.
#[tactic(auto, unfolding(f_tree::specs::Lines::is_character))]
fn is_character(basic: Basic) -> bool
    ensures { result ≡ is_character_written basic }
{
    match basic {
        Basic::Character => true,
        Basic::Integer | Basic::Logical | Basic::Untyped => false,
    }
}

/// Whether two lengths are the same, both `(*)` or no constant, or both one number.
#[tactic(auto, unfolding(declaration_rows::specs::BlockRows::same_length))]
fn same_length(own: Option<u32>, entry: Option<u32>) -> bool
    ensures { result ≡ written.same_length own entry }
{
    match (own, entry) {
        (None, None) => true,
        (Some(own), Some(entry)) => own == entry,
        (Some(_), None) | (None, Some(_)) => false,
    }
}

/// Whether two names may stand for one result, by their types and lengths.
#[tactic(auto, unfolding(crate::specs::Sharing::share_by))]
fn share_by(own: Basic, entry: Basic, same: bool) -> bool
    ensures { result ≡ spec.share_by own entry same }
{
    if is_character(own) {
        let shares = is_character(entry);
        shares && same
    } else {
        !is_character(entry)
    }
}

/// Whether the name of an entry may stand for the result of a function.
fn share_result(unit: &Unit, facts: &NameFacts, own: &[u8], entry: &[u8]) -> bool
    requires { AreNameFacts unit.now facts.now }
    ensures { result ≡ written.share_result (given_names unit.now own.now) (given_names unit.now entry.now) }
{
    let same = same_length(facts.width(own), facts.width(entry));
    share_by(facts.basic(own), facts.basic(entry), same)
}

/// Whether an entry shares the result of its unit, as each does that stands in no function.
#[tactic(auto, unfolding(declaration_rows::specs::BlockRows::shares_result))]
fn shares_result(unit: &Unit, facts: &NameFacts, entry: &[u8]) -> bool
    requires { AreNameFacts unit.now facts.now }
    ensures { result ≡ written.shares_result unit.now (given_names unit.now) unit.now.kind unit.now.name entry.now }
{
    match (&unit.kind, &unit.name) {
        (UnitKind::Function(_), Some(own)) => share_result(unit, facts, own.as_slice(), entry),
        _ => true,
    }
}

/// Whether a statement shares the result of its unit, as each does that is no ENTRY.
fn shares_at(unit: &Unit, facts: &NameFacts, body: &Body) -> bool
    requires { AreNameFacts unit.now facts.now }
    ensures { result ≡ spec.shares_at unit.now body.now }
{
    match body {
        Body::Entry(name, _) => shares_result(unit, facts, name.as_slice()),
        _ => true,
    }
}

/// Of each statement of a unit, whether it shares the result of its function if it is an ENTRY, given what the names of the unit are. An error
/// where memory ran out.
pub fn entry_sharing(alloc: Global, unit: &Unit, facts: &NameFacts) -> Result<Vec<bool>, AllocError>
    requires { AreNameFacts unit.now facts.now }
    ensures { IfOk result (λ shares. TellsSharing unit.now shares.items) }
{
    let mut shares = Vec::new(alloc);
    for statement in unit.statements.as_slice() {
        let share = shares_at(unit, facts, &statement.body);
        shares.push(share)?;
    }
    Ok(shares)
}
