//! The classes of names. Section 18.
#![tactic(auto)]

ghost use Rattle.std.specs.Prelude.{◌≡◌};
ghost use Rattle.f_tree.specs.Attributes as written;
ghost use Rattle.name_classes.specs.KnownSigns as spec;
ghost use Rattle.name_classes.specs.KnownSigns.{AreSigns, AreSignSets, signs_in, unit_uses};

use crate::signs::Signs;
use expression_judge::intrinsic_named;
use f_tree::{Class, Unit, UnitKind};

/// The class of the name of a unit and of its entries.
#[tactic(auto, unfolding(f_tree::specs::Attributes::own_class))]
fn own_class(unit: &Unit) -> Class
    ensures { result ≡ written.own_class unit.now }
{
    match &unit.kind {
        UnitKind::Function(_) => Class::Result,
        UnitKind::Main | UnitKind::Subroutine | UnitKind::BlockData => Class::Unit,
    }
}

/// The class of a dummy argument.
#[tactic(auto, unfolding(crate::specs::KnownSigns::dummy_class, crate::specs::KnownSigns::signs_in))]
fn dummy_class(signs: &Signs, name: &[u8]) -> Class
    requires { AreSignSets signs.now }
    ensures { result ≡ spec.dummy_class (signs_in signs.now name.now) }
{
    if signs.declared.externals.has(name) || signs.used.called.has(name) {
        return Class::DummyProcedure;
    }
    if signs.used.with_list.has(name) && !signs.arrays.has(name) {
        return Class::DummyProcedure;
    }
    Class::Dummy
}

/// The class of a name that stands with a list, or by itself, and of which no statement tells.
#[tactic(auto, unfolding(crate::specs::KnownSigns::listed_class))]
fn listed_class(has_list: bool, is_function: bool) -> Class
    ensures { result ≡ spec.listed_class has_list is_function }
{
    match (has_list, is_function) {
        (true, true) => Class::Intrinsic,
        (true, false) => Class::Procedure,
        (false, _) => Class::Stored,
    }
}

/// The class of a name that no statement declares to be anything but an intrinsic function.
#[tactic(auto, unfolding(crate::specs::KnownSigns::used_class, crate::specs::KnownSigns::signs_in))]
fn used_class(signs: &Signs, name: &[u8]) -> Class
    requires { AreSignSets signs.now }
    ensures { result ≡ spec.used_class (signs_in signs.now name.now) }
{
    if signs.used.assigned.has(name) {
        return Class::StatementFunction;
    }
    if signs.declared.intrinsics.has(name) {
        return Class::Intrinsic;
    }
    listed_class(
        signs.used.with_list.has(name),
        intrinsic_named(name).is_some(),
    )
}

/// The class of a name that is no constant, no dummy argument and no name of the unit.
#[tactic(auto, unfolding(crate::specs::KnownSigns::other_class, crate::specs::KnownSigns::signs_in))]
fn other_class(signs: &Signs, name: &[u8]) -> Class
    requires { AreSignSets signs.now }
    ensures { result ≡ spec.other_class (signs_in signs.now name.now) }
{
    if signs.arrays.has(name) {
        return Class::Stored;
    }
    if signs.declared.externals.has(name) || signs.used.called.has(name) {
        return Class::Procedure;
    }
    used_class(signs, name)
}

/// The class of a name, given that of the name of the unit.
#[tactic(auto, unfolding(crate::specs::KnownSigns::signs_in), using(crate::proofs::ClassLemmas::class_laws))]
fn class_by(own: Class, signs: &Signs, name: &[u8]) -> Class
    requires { AreSignSets signs.now }
    ensures { result ≡ written.class_by own (signs_in signs.now name.now) }
{
    if signs.declared.constants.has(name) {
        return Class::Constant;
    }
    if signs.entries.dummies.has(name) {
        return dummy_class(signs, name);
    }
    if signs.entries.own_names.has(name) {
        return own;
    }
    other_class(signs, name)
}

/// The class of a name of a unit. Section 18.
pub fn class_of(unit: &Unit, signs: &Signs, name: &[u8]) -> Class
    requires { AreSigns unit.now signs.now }
    ensures { result ≡ written.class_of unit.now (unit_uses unit.now) name.now }
{
    class_by(own_class(unit), signs, name)
}
