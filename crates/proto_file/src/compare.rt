//! Whether two lists of prototypes are the same.

ghost use Rattle.std.specs.Prelude.{◌≡◌, true, false};
ghost use Rattle.std.specs.Bool.{Decides};

use crate::protos::Protos;
use c_tree::declaration::CParam;
use prototypes::Prototype;

/// Whether two parameters are the same.
fn same_param(one: &CParam, other: &CParam) -> bool
    ensures { Decides result (one.now ≡ other.now) }
{
    one.of == other.of && one.name.as_slice() == other.name.as_slice()
}

/// Whether two lists of parameters are the same.
fn same_params(one: &[CParam], other: &[CParam]) -> bool
    ensures { Decides result (one.now ≡ other.now) }
{
    let mut rest = one;
    let mut others = other;
    while let [first, later @ ..] = rest {
        let [second, behind @ ..] = others else {
            return false;
        };
        if !same_param(first, second) {
            return false;
        }
        rest = later;
        others = behind;
    }
    others.is_empty()
}

/// Whether two prototypes are the same.
fn same_prototype(one: &Prototype, other: &Prototype) -> bool
    ensures { Decides result (one.now ≡ other.now) }
{
    one.result == other.result
        && one.name.as_slice() == other.name.as_slice()
        && same_params(one.params.as_slice(), other.params.as_slice())
}

/// Whether two lists of prototypes are the same.
fn same_prototypes(one: &[Prototype], other: &[Prototype]) -> bool
    ensures { Decides result (one.now ≡ other.now) }
{
    let mut rest = one;
    let mut others = other;
    while let [first, later @ ..] = rest {
        let [second, behind @ ..] = others else {
            return false;
        };
        if !same_prototype(first, second) {
            return false;
        }
        rest = later;
        others = behind;
    }
    others.is_empty()
}

/// Whether the prototypes of a file are others than they were, or stand in another order.
pub fn changed(old: &Protos, new: &Protos) -> bool
    ensures other { result ≡ true → old.now ≡ new.now → ⊥ }
    ensures same { result ≡ false → old.now ≡ new.now }
{
    !same_prototypes(old.as_slice(), new.as_slice())
}
