//! Which names of a unit have no type, or are declared. Sections 4.1.2, 8.4, 15.5.1 and 18.
#![tactic(auto)]

ghost use Rattle.std.specs.Prelude.{◌≡◌};
ghost use Rattle.declaration_rows.specs.StatementRows.{is_typed};
ghost use Rattle.declaration_rows.specs.UndeclaredRows as rows;
ghost use Rattle.name_classes.specs.KnownSigns.{AreSigns};
ghost use Rattle.unit_names.specs.Undeclared as spec;

use f_tree::{Basic, Class, Text, Unit, UnitKind};
use name_classes::{Signs, class_of};

/// Whether a type has values.
#[tactic(auto, unfolding(declaration_rows::specs::StatementRows::is_typed))]
fn is_typed(basic: Basic) -> bool
    ensures { result ≡ is_typed basic }
{
    match basic {
        Basic::Integer | Basic::Logical | Basic::Character => true,
        Basic::Untyped => false,
    }
}

/// Whether a name is the one that may be there.
#[tactic(auto, unfolding(crate::specs::Undeclared::is_name))]
fn is_name(name: &[u8], own: &Option<Text>) -> bool
    ensures { result ≡ spec.is_name name.now own.now }
{
    match own {
        Some(other) => name == other.as_slice(),
        None => false,
    }
}

/// Whether a unit is a function with this name whose first statement has its type. Section 15.5.1.
#[tactic(auto, unfolding(crate::specs::Undeclared::heads))]
fn heads(unit: &Unit, name: &[u8]) -> bool
    ensures { result ≡ spec.heads unit.now name.now }
{
    match &unit.kind {
        UnitKind::Function(typed) => is_typed(typed.basic) && is_name(name, &unit.name),
        UnitKind::Main | UnitKind::Subroutine | UnitKind::BlockData => false,
    }
}

/// Whether a type statement, or the type before FUNCTION, gives the type of a name.
pub(crate) fn is_declared(unit: &Unit, signs: &Signs, name: &[u8]) -> bool
    requires { AreSigns unit.now signs.now }
    ensures { result ≡ rows.is_declared unit.now name.now }
{
    signs.declared.typed.has(name) || heads(unit, name)
}

/// Whether a name of a class has a type; a procedure has one where it is referenced as a function.
#[tactic(auto, unfolding(crate::specs::Undeclared::class_has_type))]
fn has_type(is_referenced: bool, class: Class) -> bool
    ensures { result ≡ spec.class_has_type is_referenced class }
{
    match class {
        Class::Stored | Class::Dummy | Class::Result | Class::StatementFunction => true,
        Class::Procedure | Class::DummyProcedure => is_referenced,
        Class::Constant | Class::Unit | Class::Intrinsic => false,
    }
}

/// Whether a name of a unit has no type, or is declared.
pub(crate) fn stands(unit: &Unit, signs: &Signs, name: &[u8]) -> bool
    requires { AreSigns unit.now signs.now }
    ensures { result ≡ spec.stands unit.now name.now }
{
    let is_referenced = signs.used.with_list.has(name);
    !has_type(is_referenced, class_of(unit, signs, name)) || is_declared(unit, signs, name)
}
