//! Blocks that are joined, or extended before their start. Section 8.2.3.

ghost use Rattle.std.specs.Prelude.{◌≡◌, ◌<◌, IfOk, length, replicate, ℕ, false, None};
ghost use Rattle.std.specs.Bool.{OnTrue, OnFalse};
ghost use Rattle.placed_numbers.specs.Owned.{AreWithin, AreRooted, AreOwned, IsAnyBefore, stands_before, IsClear};
ghost use Rattle.offset_classes.specs.Forest.{place_at};

use crate::owners::own_all;
use offset_classes::Place;
use std::alloc::{AllocError, Global};

/// Whether a place is before that of the first item of its class.
#[tactic(auto, unfolding(crate::specs::Owned::stands_before, crate::specs::Owned::is_before))]
fn is_before(places: &[Place], owners: &[Option<usize>], place: Place) -> bool
    requires root { place.root < length owners.now }
    requires owned { AreOwned (length places.now) owners.now }
    ensures { result ≡ stands_before places.now owners.now place }
{
    match owners[place.root] {
        Some(first) => place.offset < places[first].offset,
        None => false,
    }
}

/// Whether no number stands before the first item of its class.
fn are_behind(places: &[Place], owners: &[Option<usize>]) -> bool
    requires rooted { AreRooted places.now }
    requires each { length owners.now ≡ length places.now }
    requires owned { AreOwned (length places.now) owners.now }
    ensures behind { OnTrue result ((y : ℕ) → y < length places.now → stands_before places.now owners.now (place_at places.now y) ≡ false) }
    ensures before { OnFalse result (IsAnyBefore places.now owners.now) }
{
    for place in places {
        if is_before(places, owners, *place) {
            return false;
        }
    }
    true
}

/// Whether no number stands before a first item, and no two first items stand in one class, no class having a first item yet.
fn are_clear_among(owners: &mut [Option<usize>], places: &[Place], firsts: &[usize]) -> bool
    requires none { owners.old ≡ replicate (length places.now) None }
    requires rooted { AreRooted places.now }
    requires within { AreWithin (length places.now) firsts.now }
    ensures { IsClear places.now firsts.now result }
{
    if !own_all(owners, places, firsts) {
        return false;
    }
    are_behind(places, owners)
}

/// Whether no number stands before a first item, and no two first items stand in one class.
pub(crate) fn are_clear(
    alloc: Global,
    places: &[Place],
    firsts: &[usize],
) -> Result<bool, AllocError>
    requires rooted { AreRooted places.now }
    requires within { AreWithin (length places.now) firsts.now }
    ensures { IfOk result (λ clear. IsClear places.now firsts.now clear) }
{
    let mut owners = vec![in alloc; None; places.len()]?;
    Ok(are_clear_among(&mut owners, places, firsts))
}
