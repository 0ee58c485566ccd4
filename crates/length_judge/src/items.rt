//! The names of a unit: those of length `(*)` that may not be, and items that are too large. Sections 5.1 and 8.4.2.
#![tactic(auto)]

ghost use Rattle.std.specs.Prelude.{◌≡◌, ◌++◌, ◌*◌, OnOk};
ghost use Rattle.declaration_rows.specs.LengthRows as rows;
ghost use Rattle.declared_types.specs.TypeTables.{AreTypes};
ghost use Rattle.f_tree.specs.Attributes.{own_names, all_dummies};
ghost use Rattle.f_tree.specs.Uses.{is_among};
ghost use Rattle.name_classes.specs.KnownSigns.{AreSigns};
ghost use Rattle.name_facts.specs.GivenFacts.{AreNameFacts};
ghost use Rattle.name_places.specs.FirstPlaces.{ArePlaces};
ghost use Rattle.name_table.specs.Named.{texts};
ghost use Rattle.length_judge.specs.ItemsSeen as spec;

use crate::definitions::has_star_length;
use crate::lengths::is_large;
use crate::names::is_character;
use declared_types::Types;
use f_tree::{Class, Kind, Refusal, Unit};
use name_classes::Signs;
use name_facts::{Bound, NameFact, NameFacts};
use name_places::{NamePlaces, add_at, mention_place};
use std::alloc::AllocError;

/// The most elements and units that are counted: one more than the greatest size of an item.
const PAST_STORAGE: u64 = 67_108_865;

/// A product of elements; numbers past the greatest size count as one more than that.
#[tactic(auto, unfolding(crate::specs::ItemsSeen::capped))]
fn capped_product(one: u64, other: u64) -> u64
    ensures { result ≡ spec.capped (one * other) }
{
    one.saturating_mul(other).min(PAST_STORAGE)
}

/// The elements of an array, or 1 for what is none.
#[tactic(auto, unfolding(crate::specs::ItemsSeen::capped_elements))]
fn elements(bounds: &[Bound]) -> u64
    ensures { result ≡ spec.capped_elements bounds.now }
{
    match bounds {
        [first, rest @ ..] => capped_product(first.size(), elements(rest)),
        [] => 1,
    }
}

/// Whether so many elements of a width are too large.
fn is_large_product(elements: u64, width: u32) -> bool
    ensures { result ≡ spec.is_large (elements * width) }
{
    is_large(elements.saturating_mul(u64::from(width)))
}

/// Whether what is stored is too large. Section 5.1.
#[tactic(auto, unfolding(crate::specs::ItemsSeen::is_large_array))]
fn is_large_array(bounds: &[Bound], width: Option<u32>) -> bool
    ensures { result ≡ spec.is_large_array bounds.now width }
{
    match width {
        Some(width) => is_large_product(elements(bounds), width),
        None => false,
    }
}

/// Whether a declared length is too large. Section 8.4.2.
#[tactic(auto, unfolding(crate::specs::ItemsSeen::is_large_width, crate::specs::ItemsSeen::is_large, declaration_rows::specs::LengthRows::declared_width, declaration_rows::specs::SharedStorageRows::most_storage))]
fn is_large_width(width: Option<u32>) -> bool
    ensures { result ≡ spec.is_large_width width }
{
    match width {
        Some(width) => is_large(u64::from(width)),
        None => false,
    }
}

/// Whether an item is too large.
#[tactic(auto, unfolding(crate::specs::ItemsSeen::is_large_fact))]
fn is_large_item(fact: &NameFact) -> bool
    ensures { result ≡ spec.is_large_fact fact.now }
{
    match fact.class {
        Class::Stored => is_large_array(fact.bounds.as_slice(), fact.width),
        Class::Constant | Class::Dummy | Class::Result | Class::Unit | Class::Procedure => {
            is_character(fact.basic) && is_large_width(fact.width)
        }
        Class::DummyProcedure | Class::StatementFunction | Class::Intrinsic => {
            is_character(fact.basic) && is_large_width(fact.width)
        }
    }
}

/// Whether a name is a procedure that is no dummy, or a statement function, and has length `(*)`. Section 8.4.2.
#[tactic(auto, unfolding(crate::specs::ItemsSeen::is_external_star))]
fn is_external_star(unit: &Unit, types: &Types, name: &[u8], fact: &NameFact) -> bool
    requires { AreTypes unit.now types.now }
    ensures { result ≡ spec.is_external_star unit.now name.now fact.now }
{
    match fact.class {
        Class::Procedure | Class::StatementFunction => {
            is_character(fact.basic) && has_star_length(unit, types, name)
        }
        Class::Constant | Class::Stored | Class::Dummy | Class::Result => false,
        Class::DummyProcedure | Class::Intrinsic | Class::Unit => false,
    }
}

/// Whether a name is that of the unit or of one of its entries, or one of their dummy arguments.
fn is_in_head(unit: &Unit, signs: &Signs, name: &[u8]) -> bool
    requires { AreSigns unit.now signs.now }
    ensures { result ≡ is_among name.now (own_names unit.now ++ all_dummies unit.now) }
{
    signs.entries.own_names.has(name) || signs.entries.dummies.has(name)
}

/// Adds the rows of a name, given whether its length may not be `(*)`, and whether it is too large.
fn add_rows(
    found: &mut Vec<Refusal>,
    unit: &Unit,
    signs: &Signs,
    places: &NamePlaces,
    name: &[u8],
    is_star: bool,
    is_large: bool,
) -> Result<(), AllocError>
    requires signs { AreSigns unit.now signs.now }
    requires places { ArePlaces unit.now places.now }
    ensures { OnOk result (found.new.items ≡ found.old.items ++ spec.rows_of unit.now name.now is_star is_large) }
{
    let place = mention_place(unit, places, is_in_head(unit, signs, name), name);
    add_at(found, place, !is_star, Kind::UseOfAssumedLength)?;
    add_at(found, place, !is_large, Kind::StorageTooLarge)
}

/// Adds the rows of a name of a unit.
fn add_item_rows(
    found: &mut Vec<Refusal>,
    unit: &Unit,
    types: &Types,
    table: &NameFacts,
    signs: &Signs,
    places: &NamePlaces,
    name: &[u8],
) -> Result<(), AllocError>
    requires types { AreTypes unit.now types.now }
    requires table { AreNameFacts unit.now table.now }
    requires signs { AreSigns unit.now signs.now }
    requires places { ArePlaces unit.now places.now }
    ensures { OnOk result (found.new.items ≡ found.old.items ++ spec.item_row unit.now name.now) }
{
    match table.get(name) {
        Some(fact) => {
            let is_star = is_external_star(unit, types, name, fact);
            add_rows(
                found,
                unit,
                signs,
                places,
                name,
                is_star,
                is_large_item(fact),
            )
        }
        None => Ok(()),
    }
}

/// Adds the rows of names of a unit. An error where memory ran out.
pub(crate) fn add_items_rows(
    found: &mut Vec<Refusal>,
    unit: &Unit,
    types: &Types,
    table: &NameFacts,
    signs: &Signs,
    places: &NamePlaces,
    names: &[&[u8]],
) -> Result<(), AllocError>
    requires types { AreTypes unit.now types.now }
    requires table { AreNameFacts unit.now table.now }
    requires signs { AreSigns unit.now signs.now }
    requires places { ArePlaces unit.now places.now }
    ensures { OnOk result (found.new.items ≡ found.old.items ++ rows.item_rows unit.now (texts names.now)) }
{
    for name in names {
        add_item_rows(found, unit, types, table, signs, places, name)?;
    }
    Ok(())
}
