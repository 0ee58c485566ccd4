//! The bounds of an array's dimensions. Section 5.1.

ghost use Rattle.std.specs.Prelude.{◌≡◌, ◌-◌, ◌*◌, ◌^◌, nat_lt, min};
ghost use Rattle.std.specs.List.{list_all};
ghost use Rattle.name_facts.specs.Dimensions.{elements_in};
ghost use Rattle.plain_names.specs.Elements as spec;

use name_facts::Bound;

/// Whether the number of elements of a dimension has 32 bits.
#[tactic(auto, using(crate::proofs::ElementLaws::bound_fits))]
fn fits(bound: &Bound) -> bool
    ensures { result ≡ spec.fits bound.now }
{
    bound.size() <= 2_147_483_647
}

/// Whether the number of elements of each dimension has 32 bits.
pub(crate) fn all_fit(bounds: &[Bound]) -> bool
    ensures { result ≡ list_all spec.fits bounds.now }
{
    bounds.iter().all(fits)
}

/// Whether no upper bound is `*` but that of the last dimension. Section 5.1.2.
#[tactic(auto, unfolding(crate::specs::Elements::only_last_is_open))]
pub(crate) fn only_last_is_open(bounds: &[Bound]) -> bool
    ensures { result ≡ spec.only_last_is_open bounds.now }
{
    match bounds {
        [first, rest @ ..] => (first.is_closed() || rest.is_empty()) && only_last_is_open(rest),
        [] => true,
    }
}

/// Whether a dimension has an element.
#[tactic(auto, unfolding(crate::specs::Elements::has_length))]
fn has_length(bound: &Bound) -> bool
    ensures { result ≡ spec.has_length bound.now }
{
    bound.size() >= 1
}

/// Whether each dimension has an element.
pub(crate) fn all_have_length(bounds: &[Bound]) -> bool
    ensures { result ≡ list_all spec.has_length bounds.now }
{
    bounds.iter().all(has_length)
}

/// How many elements an array has, or the largest number, if there are more; none where an upper bound is `*`.
fn elements(bounds: &[Bound]) -> u64
    ensures { result ≡ min (elements_in bounds.now) (2 ^ 64 - 1) }
{
    let mut count = 1u64;
    for bound in bounds {
        count = count.saturating_mul(bound.size());
    }
    count
}

/// Whether a variable or an array of numbers has at most 67,108,864 bytes.
pub(crate) fn is_small(bounds: &[Bound]) -> bool
    ensures { result ≡ nat_lt (elements_in bounds.now * 4) 67108865 }
{
    elements(bounds).saturating_mul(4) < 67_108_865
}
