//! The dummy arguments of the definition of a statement function: names of their own, with the types that the names would have in the unit.
//! Section 15.4.
#![tactic(auto)]

ghost use Rattle.std.specs.Prelude.{◌≡◌, OnOk, IfOk, None, Some, List, ℕ, bytes_eq, if◌then◌else◌};
ghost use Rattle.std.specs.HashMap.{get_by};
ghost use Rattle.call_shapes.specs.declaration_rows.NameRows.{own_attributes};
ghost use Rattle.declared_types.specs.TypeTables.{AreTypes};
ghost use Rattle.name_table.specs.Named.{texts};
ghost use Rattle.reference_judge.specs.KnownBindings.{bound_basic};

use declared_types::{Types, typed_name};
use f_tree::{Basic, Unit};
use indexmap::IndexMap;
use std::alloc::{AllocError, Global};
use std::mem;

/// The type that a name has, were it a name of the unit.
fn own_basic(unit: &Unit, types: &Types, name: &[u8]) -> Basic
    requires { AreTypes unit.now types.now }
    ensures { result ≡ (own_attributes unit.now name.now).basic }
{
    typed_name(unit, types, name).basic
}

/// No dummy arguments.
fn no_dummies<'a>(alloc: Global) -> IndexMap<&'a [u8], Basic>
    ensures { (x : List ℕ) → get_by (λ k. bytes_eq x k.now) result ≡ None }
{
    IndexMap::new(alloc)
}

/// Notes the type of a dummy argument.
fn put_basic<'a>(
    dummies: &mut IndexMap<&'a [u8], Basic>,
    name: &'a [u8],
    basic: Basic,
) -> Result<(), AllocError>
    ensures { OnOk result ((x : List ℕ)
        → get_by (λ k. bytes_eq x k.now) dummies.new ≡ (if bytes_eq name.now x then Some basic else get_by (λ k. bytes_eq x k.now) dummies.old)) }
{
    match dummies.insert(name, basic) {
        Ok(_) => Ok(()),
        Err(_) => Err(AllocError),
    }
}

/// Dummy arguments with their types. An error where memory ran out.
pub(crate) fn bound_dummies<'a>(
    alloc: Global,
    unit: &Unit,
    types: &Types,
    names: &[&'a [u8]],
) -> Result<IndexMap<&'a [u8], Basic>, AllocError>
    requires { AreTypes unit.now types.now }
    ensures { IfOk result (λ dummies. (x : List ℕ) → get_by (λ k. bytes_eq x k.now) dummies ≡ bound_basic (own_attributes unit.now) (texts names.now) x) }
{
    let mut dummies = no_dummies(alloc);
    for name in names {
        let basic = own_basic(unit, types, name);
        put_basic(&mut dummies, name, basic)?;
    }
    Ok(dummies)
}

/// Exchanges dummy arguments that are known for others.
pub(crate) fn exchange<'a>(
    known: &mut IndexMap<&'a [u8], Basic>,
    others: &mut IndexMap<&'a [u8], Basic>,
)
    ensures known { (x : List ℕ) → get_by (λ k. bytes_eq x k.now) known.new ≡ get_by (λ k. bytes_eq x k.now) others.old }
    ensures others { (x : List ℕ) → get_by (λ k. bytes_eq x k.now) others.new ≡ get_by (λ k. bytes_eq x k.now) known.old }
{
    mem::swap(known, others);
}
