//! The dummy arguments of a definition: names of their own, with the types that the names would have in the unit. Section 15.4.
#![tactic(auto)]

ghost use Rattle.std.specs.Prelude.{◌≡◌, OnOk, IfOk, Some, List, ℕ, map, bytes_eq, if◌then◌else◌};
ghost use Rattle.std.specs.HashMap.{get_by};
ghost use Rattle.declaration_rows.specs.NameRows.{own_attributes, dummies_rows};
ghost use Rattle.declaration_rows.specs.StatementRows.{is_typed};
ghost use Rattle.declared_types.specs.TypeTables.{AreTypes};
ghost use Rattle.f_tree.specs.Uses.{is_among};
ghost use Rattle.name_table.specs.Named.{texts, names_in, IsNameSet};
ghost use Rattle.refusal_order.specs.Earliest.{least_of};
ghost use Rattle.definition_judge.specs.KnownFunctions as spec;

use declared_types::{Types, typed_name};
use f_tree::{Basic, Kind, Unit};
use indexmap::IndexMap;
use kind_order::unless;
use name_table::NameSet;
use refusal_order::lesser_of;
use std::alloc::{AllocError, Global};

/// The type that a name has, were it a name of the unit.
pub(crate) fn own_basic(unit: &Unit, types: &Types, name: &[u8]) -> Basic
    requires { AreTypes unit.now types.now }
    ensures { result ≡ (own_attributes unit.now name.now).basic }
{
    typed_name(unit, types, name).basic
}

/// The types of dummy arguments, in their order.
pub(crate) fn dummy_basics(
    alloc: Global,
    unit: &Unit,
    types: &Types,
    dummies: &[&[u8]],
) -> Result<Vec<Basic>, AllocError>
    requires { AreTypes unit.now types.now }
    ensures { IfOk result (λ basics. basics.items ≡ map (λ y. (own_attributes unit.now y).basic) (texts dummies.now)) }
{
    let mut basics = Vec::new(alloc);
    for dummy in dummies {
        basics.push(own_basic(unit, types, dummy))?;
    }
    Ok(basics)
}

/// Notes the type of a dummy argument.
fn put_basic<'a>(
    table: &mut IndexMap<&'a [u8], Basic>,
    name: &'a [u8],
    basic: Basic,
) -> Result<(), AllocError>
    ensures { OnOk result ((x : List ℕ)
        → get_by (λ k. bytes_eq x k.now) table.new ≡ (if bytes_eq name.now x then Some basic else get_by (λ k. bytes_eq x k.now) table.old)) }
{
    match table.insert(name, basic) {
        Ok(_) => Ok(()),
        Err(_) => Err(AllocError),
    }
}

/// Puts dummy arguments with their types into a table, in place of all that it has.
pub(crate) fn bind_dummies<'a>(
    table: &mut IndexMap<&'a [u8], Basic>,
    unit: &Unit,
    types: &Types,
    dummies: &[&'a [u8]],
) -> Result<(), AllocError>
    requires { AreTypes unit.now types.now }
    ensures { OnOk result ((x : List ℕ) → get_by (λ k. bytes_eq x k.now) table.new ≡ spec.bound_basic (own_attributes unit.now) (texts dummies.now) x) }
{
    table.clear();
    for dummy in dummies {
        let basic = own_basic(unit, types, dummy);
        put_basic(table, dummy, basic)?;
    }
    Ok(())
}

/// Whether a type has values.
#[tactic(auto, unfolding(declaration_rows::specs::StatementRows::is_typed))]
fn is_typed(basic: Basic) -> bool
    ensures { result ≡ is_typed basic }
{
    match basic {
        Basic::Integer | Basic::Logical | Basic::Character => true,
        Basic::Untyped => false,
    }
}

/// The least row of a dummy argument: it has a type that has values, and does not stand again.
#[tactic(auto, unfolding(crate::specs::KnownFunctions::dummy_found))]
fn dummy_fault(basic: Basic, stands_again: bool) -> Option<Kind>
    ensures { result ≡ spec.dummy_found basic stands_again }
{
    let typed = unless(is_typed(basic), Kind::NameHasTypeReal);
    let once = unless(!stands_again, Kind::BadStatementFunction);
    lesser_of(typed, once)
}

/// The least row of dummy arguments.
pub(crate) fn dummies_fault<'a>(
    alloc: Global,
    unit: &Unit,
    types: &Types,
    dummies: &[&'a [u8]],
) -> Result<Option<Kind>, AllocError>
    requires { AreTypes unit.now types.now }
    ensures { IfOk result (λ fault. fault ≡ least_of (dummies_rows (own_attributes unit.now) (texts dummies.now))) }
{
    let mut later = NameSet::new(alloc);
    let mut fault = None;
    for behind in 0..dummies.len() {
        let dummy = dummies[dummies.len() - 1 - behind];
        let here = dummy_fault(own_basic(unit, types, dummy), later.has(dummy));
        fault = lesser_of(here, fault);
        later.add(dummy)?;
    }
    Ok(fault)
}
