//! The character units that names take. Sections 5.1 and 17.1.1.

ghost use Rattle.std.specs.Prelude.{◌≡◌, ◌*◌, IfOk, map};
ghost use Rattle.f_tree.specs.Lines.{size_of};
ghost use Rattle.f_tree.specs.Valuing.{elements_of, extent_of};
ghost use Rattle.name_facts.specs.GivenFacts.{bounds_of};
ghost use Rattle.unit_equations.specs.BlocksTold.{attribute_by, naming_by};

use name_facts::{Bound, NameFact, NameFacts};
use std::alloc::AllocError;

/// A product, if a number has room for it.
fn product(one: u64, other: u64) -> Result<u64, AllocError>
    ensures { IfOk result (λ value. value ≡ one * other) }
{
    match one.checked_mul(other) {
        Some(value) => Ok(value),
        None => Err(AllocError),
    }
}

/// The elements of an array, or 1 for what is none; none where an upper bound is `*`.
#[tactic(auto, unfolding(f_tree::specs::Valuing::elements_of, f_tree::specs::Valuing::size_of_dimension, name_facts::specs::GivenFacts::bounds_of))]
fn elements(bounds: &[Bound]) -> Result<Option<u64>, AllocError>
    ensures { IfOk result (λ count. count ≡ elements_of (map bounds_of bounds.now)) }
{
    match bounds {
        [first, rest @ ..] => match first.upper {
            Some(_) => match elements(rest)? {
                Some(further) => Ok(Some(product(first.size(), further)?)),
                None => Ok(None),
            },
            None => Ok(None),
        },
        [] => Ok(Some(1)),
    }
}

/// The character units of elements of a width; 0 where they are not known.
#[tactic(auto, unfolding(f_tree::specs::Valuing::extent_of))]
fn extent(count: Option<u64>, width: u32) -> Result<u64, AllocError>
    ensures { IfOk result (λ size. size ≡ extent_of count width) }
{
    match count {
        Some(count) => product(count, u64::from(width)),
        None => Ok(0),
    }
}

/// The character units of a name, given what it is.
#[tactic(auto, unfolding(f_tree::specs::Lines::size_of, f_tree::specs::Lines::size_by, crate::specs::BlocksTold::attribute_by))]
fn fact_size(fact: &NameFact) -> Result<u64, AllocError>
    ensures { IfOk result (λ size. size ≡ size_of (attribute_by fact.now)) }
{
    match fact.width {
        Some(width) => extent(elements(fact.bounds.as_slice())?, width),
        None => Ok(0),
    }
}

/// The character units that a name takes, given what the names of its unit are; 0 for a name without a constant length. Sections 8.4.2 and
/// 17.1.1.
///
/// # Errors
///
/// More units than a number has room for.
#[tactic(auto, unfolding(f_tree::specs::Lines::size_of, f_tree::specs::Lines::size_by, name_facts::specs::GivenFacts::fact_or, name_facts::specs::GivenFacts::no_fact, crate::specs::BlocksTold::attribute_by, crate::specs::BlocksTold::naming_by))]
pub fn stored_size(facts: &NameFacts, name: &[u8]) -> Result<u64, AllocError>
    ensures { IfOk result (λ size. size ≡ size_of (naming_by facts.now name.now)) }
{
    match facts.get(name) {
        Some(fact) => fact_size(fact),
        None => Ok(0),
    }
}
