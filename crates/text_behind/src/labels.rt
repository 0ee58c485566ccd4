//! The positions of labels behind so many steps.

ghost use Rattle.std.specs.Prelude.{◌≡◌, ℕ, nat_eq, Some, OnOk, IfOk, slice_get, if◌then◌else◌};
ghost use Rattle.std.specs.HashMap.{get_by};
ghost use Rattle.behind_bounds.specs.BehindBounds.{position_behind};
ghost use Rattle.text_behind.specs.LabelsBehind as spec;

use crate::steps::number_behind;
use indexmap::IndexMap;
use std::alloc::{AllocError, Global};

/// Notes where the steps of a label begin.
fn put_label(labels: &mut IndexMap<u32, usize>, label: u32, at: usize) -> Result<(), AllocError>
    ensures { OnOk result ((q : ℕ) → get_by (nat_eq q) labels.new ≡ (if nat_eq q label then Some at else get_by (nat_eq q) labels.old)) }
{
    match labels.insert(label, at) {
        Ok(_) => Ok(()),
        Err(_) => Err(AllocError),
    }
}

/// Notes where the steps of a label begin behind so many others. Fails where no number is left.
fn put_behind(
    labels: &mut IndexMap<u32, usize>,
    first: usize,
    label: &u32,
    at: &usize,
) -> Result<(), AllocError>
    ensures { OnOk result ((q : ℕ) → get_by (nat_eq q) labels.new ≡ spec.one_behind first q (label.now, at.now) (get_by (nat_eq q) labels.old)) }
{
    let at = number_behind(first, *at)?;
    put_label(labels, *label, at)
}

/// Notes one of the labels of a text, by its place among them, behind so many steps.
fn put_at(
    found: &mut IndexMap<u32, usize>,
    labels: &IndexMap<u32, usize>,
    place: usize,
    first: usize,
) -> Result<(), AllocError>
    ensures { OnOk result ((q : ℕ) → get_by (nat_eq q) found.new ≡ spec.place_behind first q (slice_get labels.now.entries place) (get_by (nat_eq q) found.old)) }
{
    match labels.get_index(place) {
        Some((label, at)) => put_behind(found, first, label, at),
        None => Ok(()),
    }
}

/// The positions of labels behind so many steps. They are noted from the last, since the first place of a label counts.
pub(crate) fn labels_behind(
    alloc: Global,
    first: usize,
    labels: &IndexMap<u32, usize>,
) -> Result<IndexMap<u32, usize>, AllocError>
    ensures { IfOk result (λ behind. (q : ℕ) → get_by (nat_eq q) behind ≡ position_behind first (λ n. get_by (nat_eq n) labels.now) q) }
{
    let mut found = IndexMap::new(alloc);
    let mut place = labels.len();
    while place > 0 {
        place -= 1;
        put_at(&mut found, labels, place, first)?;
    }
    Ok(found)
}
