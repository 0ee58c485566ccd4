//! The names of a unit that are intrinsic functions. Sections 8.8 and 15.10.

ghost use Rattle.std.specs.Prelude.{◌≡◌, OnOk, IfOk};
ghost use Rattle.name_classes.specs.KnownSigns.{AreSigns};
ghost use Rattle.name_table.specs.Named.{IsNameSet, texts};
ghost use Rattle.decl_table.specs.UnitFacts as spec;
ghost use Rattle.decl_table.specs.UnitFacts.{AddsFunction, AreFunctionsAmong, AreFunctions};

use f_tree::{Class, Unit};
use name_classes::{Signs, class_of};
use name_places::all_names;
use name_table::NameSet;
use std::alloc::{AllocError, Global};

/// Whether a class is that of intrinsic functions.
#[tactic(auto, unfolding(crate::specs::UnitFacts::is_intrinsic))]
fn is_intrinsic(class: Class) -> bool
    ensures { result ≡ spec.is_intrinsic class }
{
    match class {
        Class::Intrinsic => true,
        Class::Constant
        | Class::Stored
        | Class::Dummy
        | Class::DummyProcedure
        | Class::Result
        | Class::Unit
        | Class::Procedure
        | Class::StatementFunction => false,
    }
}

/// Adds a name if it is an intrinsic function.
fn add_function<'a>(
    unit: &Unit,
    signs: &Signs,
    functions: &mut NameSet<'a>,
    name: &'a [u8],
) -> Result<(), AllocError>
    requires signs { AreSigns unit.now signs.now }
    requires is_set { IsNameSet functions.old }
    ensures { OnOk result (AddsFunction unit.now functions.old functions.new name.now) }
{
    if is_intrinsic(class_of(unit, signs, name)) {
        return functions.add(name);
    }
    Ok(())
}

/// Those of names that are intrinsic functions.
fn functions_among<'a>(
    alloc: Global,
    unit: &Unit,
    signs: &Signs,
    names: &[&'a [u8]],
) -> Result<NameSet<'a>, AllocError>
    requires { AreSigns unit.now signs.now }
    ensures { IfOk result (λ functions. AreFunctionsAmong unit.now (texts names.now) functions) }
{
    let mut functions = NameSet::new(alloc);
    for name in names {
        add_function(unit, signs, &mut functions, name)?;
    }
    Ok(functions)
}

/// The names of a unit that are intrinsic functions. An error where memory ran out.
pub(crate) fn unit_functions<'a>(
    alloc: Global,
    unit: &'a Unit,
    signs: &Signs,
) -> Result<NameSet<'a>, AllocError>
    requires { AreSigns unit.now signs.now }
    ensures { IfOk result (λ functions. AreFunctions unit.now functions) }
{
    let names = all_names(alloc, &signs.arrays, unit)?;
    functions_among(alloc, unit, signs, names.as_slice())
}
