//! The bounds of an array's dimensions, and those that a procedure keeps. Sections 5.1 and 5.5.1.

ghost use Rattle.std.specs.Prelude.{◌≡◌, IfOk};
ghost use Rattle.unit_translation.specs.unit_file.UnitFile.{bound_name};
ghost use Rattle.name_facts.specs.Dimensions.{elements_in};
ghost use Rattle.name_facts.specs.GivenFacts.{fact_in};
ghost use Rattle.unit_writer.specs.ToldUnits.{bound_told};
ghost use Rattle.unit_writer.specs.Told as told;

use crate::heading::{BoundKind, KeptBound};
use c_names::{lower_bound_name, size_name};
use c_tree::expression::Text;
use name_facts::{Bound, NameFacts};
use std::alloc::{AllocError, Global};

/// The bounds of a name's dimensions.
#[tactic(auto, unfolding(name_facts::specs::GivenFacts::fact_or, name_facts::specs::GivenFacts::no_fact))]
pub(crate) fn bounds_in<'a>(table: &'a NameFacts, name: &[u8]) -> &'a [Bound]
    ensures { result.now ≡ (fact_in table.now name.now).bounds }
{
    match table.get(name) {
        Some(fact) => fact.bounds.as_slice(),
        None => &[],
    }
}

/// How many elements an array has; none where an upper bound is `*`.
///
/// # Errors
///
/// More than a number has room for.
pub(crate) fn elements(bounds: &[Bound]) -> Result<u64, AllocError>
    ensures { IfOk result (λ count. count ≡ elements_in bounds.now) }
{
    let mut count = 1u64;
    for bound in bounds {
        let Some(more) = count.checked_mul(bound.size()) else {
            return Err(AllocError);
        };
        count = more;
    }
    Ok(count)
}

/// Whether two kinds are the same.
#[tactic(auto, unfolding(crate::specs::Told::is_same_kind))]
fn is_same_kind(kind: BoundKind, other: BoundKind) -> bool
    ensures { result ≡ told.is_same_kind kind other }
{
    match (kind, other) {
        (BoundKind::Lower, BoundKind::Lower) => true,
        (BoundKind::Lower, BoundKind::Size) => false,
        (BoundKind::Size, BoundKind::Lower) => false,
        (BoundKind::Size, BoundKind::Size) => true,
    }
}

/// Whether what is kept is this bound of a dimension of an array.
#[tactic(auto, unfolding(crate::specs::Told::is_bound))]
fn is_bound(one: &KeptBound, name: &[u8], place: usize, kind: BoundKind) -> bool
    ensures { result ≡ told.is_bound name.now place kind one.now }
{
    name == one.dummy && (place == one.place && is_same_kind(kind, one.kind))
}

/// Whether a bound of a dimension of an array is kept.
#[tactic(auto, unfolding(crate::specs::Told::is_kept))]
pub(crate) fn is_kept(kept: &[KeptBound], name: &[u8], place: usize, kind: BoundKind) -> bool
    ensures { result ≡ told.is_kept kept.now name.now place kind }
{
    kept.iter().any(|one| is_bound(one, name, place, kind))
}

/// The name of what keeps a bound.
///
/// # Errors
///
/// Want of memory, or a dimension that has no number.
pub(crate) fn bound_name(alloc: Global, one: &KeptBound) -> Result<Text, AllocError>
    ensures { IfOk result (λ text. text ≡ bound_name (bound_told one.now)) }
{
    let Some(number) = one.place.checked_add(1) else {
        return Err(AllocError);
    };
    match one.kind {
        BoundKind::Lower => lower_bound_name(alloc, one.dummy, number),
        BoundKind::Size => size_name(alloc, one.dummy, number),
    }
}
