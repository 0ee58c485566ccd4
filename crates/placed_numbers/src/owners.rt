//! The first item of each class. Section 8.2.3.

ghost use Rattle.std.specs.Prelude.{◌≡◌, ◌<◌, length, replicate, None};
ghost use Rattle.std.specs.Bool.{OnTrue, OnFalse};
ghost use Rattle.placed_numbers.specs.Owned.{root_at, AreWithin, AreRooted, IsPut, HasOther, AreOwners, AreJoined};

use offset_classes::Place;

/// Whether two numbers are one.
fn are_one(one: usize, other: usize) -> bool
    ensures same { OnTrue result (one ≡ other) }
    ensures apart { OnFalse result (one ≡ other → ⊥) }
{
    one == other
}

/// Makes a number the first item of the class with a root, unless the class has another one.
fn own(owners: &mut [Option<usize>], root: usize, first: usize) -> bool
    requires { root < length owners.old }
    ensures put { OnTrue result (IsPut owners.old owners.new root first) }
    ensures other { OnFalse result (HasOther owners.old root first) }
{
    match owners[root] {
        Some(other) => are_one(other, first),
        None => {
            owners[root] = Some(first);
            true
        }
    }
}

/// The root of the class of a number.
fn root_of(places: &[Place], number: usize) -> usize
    requires { number < length places.now }
    ensures { result ≡ root_at places.now number }
{
    places[number].root
}

/// Gives each class the first item that stands in it, each class being without one; false where a class has two. A number may be given more than
/// once.
pub(crate) fn own_all(owners: &mut [Option<usize>], places: &[Place], firsts: &[usize]) -> bool
    requires none { owners.old ≡ replicate (length places.now) None }
    requires rooted { AreRooted places.now }
    requires within { AreWithin (length places.now) firsts.now }
    ensures owned { OnTrue result (AreOwners places.now firsts.now owners.new) }
    ensures joined { OnFalse result (AreJoined places.now firsts.now) }
{
    for first in firsts {
        if !own(owners, root_of(places, *first), *first) {
            return false;
        }
    }
    true
}
