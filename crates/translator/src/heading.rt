//! The heading of a unit: what it is, its name, its dummy arguments with the types of their parameters, and what it keeps of them. Sections 2.4, 5.5.1,
//! 15.5 to 15.7 and 15.9.

ghost use Rattle.std.specs.Prelude.{◌≡◌, IfOk, map, true};
ghost use Rattle.f_tree.specs.declared.units.Unit.{Unit as GivenUnit};
ghost use Rattle.f_tree.specs.Attributes.{named_dummies};
ghost use Rattle.f_tree.specs.Lines.{unit_kind};
ghost use Rattle.declared_types.specs.TypeTables.{AreShapes};
ghost use Rattle.faithful.specs.Signatures as signatures;
ghost use Rattle.name_classes.specs.KnownSigns.{AreSigns, AreSignSets, unit_uses};
ghost use Rattle.name_facts.specs.GivenFacts.{AreNameFacts};
ghost use Rattle.unit_forms.specs.PlainProcedures.{may_run};
ghost use Rattle.unit_translation.specs.UnitContents.{parameter_for};
ghost use Rattle.unit_writer.specs.ToldUnits.{kind_told, dummy_told};
ghost use Rattle.translator.specs.UnitFiles.{IsHeading, parameter_in, dummy_in};

use crate::bounds::bounds_kept;
use crate::procedures::own_name;
use c_tree::types::{FunctionType, ParameterType};
use declared_types::Shapes;
use f_tree::{Basic, Class, DummyArgument, Unit, UnitKind};
use name_classes::Signs;
use name_facts::NameFacts;
use std::alloc::{AllocError, Global};
use unit_writer::{Dummy, Heading, UnitRole};

/// What a unit is that may run.
#[tactic(auto, unfolding(f_tree::specs::Lines::unit_kind, unit_forms::specs::PlainProcedures::may_run, unit_writer::specs::ToldUnits::kind_told))]
fn role_of(unit: &Unit) -> UnitRole
    ensures { may_run (unit_kind unit.now) ≡ true → unit_kind unit.now ≡ kind_told result }
{
    match &unit.kind {
        UnitKind::Main | UnitKind::BlockData => UnitRole::Main,
        UnitKind::Subroutine => UnitRole::Subroutine,
        UnitKind::Function(_) => UnitRole::Function,
    }
}

/// The type of the parameter for a dummy procedure that is referenced as a function of a type.
#[tactic(auto, unfolding(faithful::specs::Signatures::function_dummy, unit_translation::specs::UnitContents::parameter_for))]
fn function_parameter(basic: Basic) -> ParameterType
    ensures { result ≡ parameter_for (signatures.function_dummy basic) }
{
    match basic {
        Basic::Logical => ParameterType::Function(FunctionType::Logical),
        Basic::Integer | Basic::Character | Basic::Untyped => {
            ParameterType::Function(FunctionType::Integer)
        }
    }
}

/// The type of the parameter for a dummy procedure: one that is called, referenced as a function, or only passed on.
fn procedure_parameter(signs: &Signs, basic: Basic, name: &[u8]) -> ParameterType
    requires { AreSignSets signs.now }
    ensures { (u : GivenUnit) → AreSigns u signs.now → result ≡ parameter_for (signatures.procedure_dummy (unit_uses u) basic name.now) }
{
    if signs.used.called.has(name) {
        ParameterType::Function(FunctionType::Subroutine)
    } else if signs.used.with_list.has(name) {
        function_parameter(basic)
    } else {
        ParameterType::Function(FunctionType::Unknown)
    }
}

/// The type of the parameter for a variable or an array.
#[tactic(auto, unfolding(faithful::specs::Signatures::variable_dummy, unit_translation::specs::UnitContents::parameter_for))]
fn variable_parameter(basic: Basic) -> ParameterType
    ensures { result ≡ parameter_for (signatures.variable_dummy basic) }
{
    match basic {
        Basic::Integer => ParameterType::Integers,
        Basic::Logical => ParameterType::Logicals,
        Basic::Character => ParameterType::Chars,
        Basic::Untyped => ParameterType::Function(FunctionType::Unknown),
    }
}

/// The type of the parameter for a dummy argument.
fn parameter(signs: &Signs, table: &NameFacts, name: &[u8]) -> ParameterType
    requires { AreSignSets signs.now }
    ensures { (u : GivenUnit) → AreSigns u signs.now → AreNameFacts u table.now → result ≡ parameter_in u name.now }
{
    match table.class(name) {
        Class::DummyProcedure => procedure_parameter(signs, table.basic(name), name),
        _ => variable_parameter(table.basic(name)),
    }
}

/// The dummy arguments that have names, in their order.
fn dummies<'a>(
    alloc: Global,
    dummies: &'a [DummyArgument],
    signs: &Signs,
    table: &NameFacts,
) -> Result<Vec<Dummy<'a>>, AllocError>
    requires { AreSignSets signs.now }
    ensures { IfOk result (λ found. (u : GivenUnit) → AreSigns u signs.now → AreNameFacts u table.now → map dummy_told found.items ≡ map (dummy_in u) (named_dummies dummies.now)) }
{
    let mut found = Vec::new(alloc);
    for dummy in dummies {
        if let DummyArgument::Named(name) = dummy {
            let name = name.as_slice();
            let parameter = parameter(signs, table, name);
            found.push(Dummy { name, parameter })?;
        }
    }
    Ok(found)
}

/// The heading of a unit.
pub(crate) fn heading<'a>(
    alloc: Global,
    unit: &'a Unit,
    signs: &Signs,
    shapes: &Shapes,
    table: &NameFacts,
) -> Result<Heading<'a>, AllocError>
    requires signs { AreSigns unit.now signs.now }
    requires shapes { AreShapes unit.now shapes.now }
    requires table { AreNameFacts unit.now table.now }
    ensures { IfOk result (λ heading. IsHeading unit.now heading) }
{
    Ok(Heading {
        role: role_of(unit),
        name: own_name(unit),
        dummies: dummies(alloc, unit.dummies.as_slice(), signs, table)?,
        bounds: bounds_kept(alloc, unit, shapes, table, unit.dummies.as_slice())?,
    })
}
