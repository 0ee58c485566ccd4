//! The functions of the units of a file, from what they are lowered to: the constants of the file, the procedures of the set, and the functions. Sections
//! 2.4, 3.5, 12.8, 15.5 and 15.6; C89, 3.7.

ghost use Rattle.std.specs.HashMap.{get_by};
ghost use Rattle.std.specs.Prelude.{◌≡◌, IfOk, List, OnOk, bytes_eq, map, ℕ};
ghost use Rattle.procedure_emission.specs.EmittedUnits as emitted;
ghost use Rattle.unit_translation.specs.UnitContents.{constants_passed, LoweredUnit as OneUnit};
ghost use Rattle.unit_writer.specs.ToldUnits.{TellsProcedures, callees_by, callees_told};
ghost use Rattle.translator.specs.LoweredFiles as spec;

use crate::rows::form_row;
use crate::unit::{PlainUnit, unless_refused};
use c_tree::file::CFunction;
use c_tree::types::{ParameterType, ResultType};
use f_tree::{Basic, Fail, Refusal};
use indexmap::IndexMap;
use refusal_order::earlier_of;
use std::alloc::{AllocError, Global};
use std::collections::BTreeSet;
use unit_contents::{add_constants, listed_constants};
use unit_writer::{Dummy, Procedure, UnitRole, write_unit};

/// The constants that units pass by their address, each once.
fn constants_among(alloc: Global, units: &[PlainUnit]) -> Result<BTreeSet<i32>, AllocError>
    requires { spec.EachIsKnown units.now }
    ensures { IfOk result (λ constants. (us : List OneUnit) → spec.AreTold us units.now → constants.keys ≡ constants_passed us) }
{
    let mut constants = BTreeSet::new(alloc);
    for unit in units {
        add_constants(&mut constants, &unit.table, &unit.text, &unit.contents)?;
    }
    Ok(constants)
}

/// The constants that the units of a file pass by their address, each once, in ascending order.
pub(crate) fn constants_of(alloc: Global, units: &[PlainUnit]) -> Result<Vec<i32>, AllocError>
    requires { spec.EachIsKnown units.now }
    ensures { IfOk result (λ constants. (us : List OneUnit) → spec.AreTold us units.now → constants.items ≡ constants_passed us) }
{
    let constants = constants_among(alloc, units)?;
    listed_constants(alloc, &constants)
}

/// What a function of numbers of a type gives its caller.
#[tactic(auto, unfolding(procedure_emission::specs::EmittedUnits::number_result))]
fn number_result(basic: Basic) -> ResultType
    ensures { result ≡ emitted.number_result basic }
{
    match basic {
        Basic::Logical => ResultType::Logical,
        Basic::Integer | Basic::Character | Basic::Untyped => ResultType::Integer,
    }
}

/// What the function of a unit gives its caller.
#[tactic(auto, unfolding(crate::specs::LoweredFiles::result_in, crate::specs::LoweredFiles::result_for))]
fn result_of(unit: &PlainUnit) -> ResultType
    ensures { result ≡ spec.result_in unit.now }
{
    match unit.heading.role {
        UnitRole::Function => number_result(unit.table.basic(unit.heading.name)),
        UnitRole::Main | UnitRole::Subroutine => ResultType::Int,
    }
}

/// The types of the parameters for dummy arguments.
fn parameters_of(alloc: Global, dummies: &[Dummy]) -> Result<Vec<ParameterType>, AllocError>
    ensures { IfOk result (λ parameters. parameters.items ≡ map (λ dummy. dummy.parameter) dummies.now) }
{
    dummies.iter().map(|dummy| dummy.parameter).collect(alloc)
}

/// The procedure that a unit is.
fn procedure_of(alloc: Global, unit: &PlainUnit) -> Result<Procedure, AllocError>
    ensures { IfOk result (spec.IsProcedureOf unit.now) }
{
    Ok(Procedure {
        result: result_of(unit),
        parameters: parameters_of(alloc, unit.heading.dummies.as_slice())?,
    })
}

/// Whether a unit is one that is called by its name.
#[tactic(auto, unfolding(crate::specs::LoweredFiles::is_called))]
fn is_called(role: UnitRole) -> bool
    ensures { result ≡ spec.is_called role }
{
    match role {
        UnitRole::Main => false,
        UnitRole::Subroutine | UnitRole::Function => true,
    }
}

/// Notes the procedure that a unit is by its name, if it is one and none of this name is there.
#[tactic(auto, unfolding(crate::specs::LoweredFiles::added))]
fn add_procedure<'a>(
    alloc: Global,
    procedures: &mut IndexMap<&'a [u8], Procedure>,
    unit: &PlainUnit<'a>,
) -> Result<(), AllocError>
    ensures { OnOk result ((x : List ℕ)
        → callees_told (λ y. get_by (λ k. bytes_eq y k.now) procedures.new) x
        ≡ spec.added (callees_told (λ y. get_by (λ k. bytes_eq y k.now) procedures.old) x) (spec.own_callees unit.now x)) }
{
    if !is_called(unit.heading.role) || procedures.contains_key(unit.heading.name) {
        return Ok(());
    }
    match procedures.insert(unit.heading.name, procedure_of(alloc, unit)?) {
        Ok(_) => Ok(()),
        Err(_) => Err(AllocError),
    }
}

/// No procedures.
fn no_procedures<'a>(alloc: Global) -> IndexMap<&'a [u8], Procedure>
    ensures { (x : List ℕ) → get_by (λ k. bytes_eq x k.now) result ≡ None }
{
    IndexMap::new(alloc)
}

/// The procedures of a set, by their names: of two units with one name the first.
pub(crate) fn procedures_of<'a>(
    alloc: Global,
    units: &[PlainUnit<'a>],
) -> Result<IndexMap<&'a [u8], Procedure>, AllocError>
    ensures { IfOk result (λ procedures. (us : List OneUnit) → spec.AreTold us units.now → TellsProcedures us (λ x. get_by (λ k. bytes_eq x k.now) procedures)) }
{
    let mut procedures = no_procedures(alloc);
    for unit in units {
        add_procedure(alloc, &mut procedures, unit)?;
    }
    Ok(procedures)
}

/// Writes the function of a unit; the row of the unit where it has none.
fn add_function<'a>(
    alloc: Global,
    unit: &PlainUnit<'a>,
    procedures: &IndexMap<&'a [u8], Procedure>,
    constants: &[i32],
    found: &mut Vec<CFunction>,
) -> Result<Option<Refusal>, AllocError>
    ensures { IfOk result (spec.AddsFunction unit.now (λ x. get_by (λ k. bytes_eq x k.now) procedures.now) constants.now found.old.items found.new.items) }
{
    let names = unit.names.as_slice();
    match write_unit(
        alloc,
        &unit.table,
        names,
        &unit.heading,
        procedures,
        constants,
        &unit.text,
        &unit.contents,
    )? {
        Some(function) => {
            found.push(function)?;
            Ok(None)
        }
        None => Ok(Some(form_row(unit.unit))),
    }
}

/// The functions of the units of a file, given the procedures of the set and the constants of the file.
///
/// # Errors
///
/// The first of the rows of the units that have no function; or want of memory.
pub(crate) fn functions_of<'a>(
    alloc: Global,
    units: &[PlainUnit<'a>],
    procedures: &IndexMap<&'a [u8], Procedure>,
    constants: &[i32],
) -> Result<Vec<CFunction>, Fail>
    ensures { spec.AreFunctionsOf units.now (λ x. get_by (λ k. bytes_eq x k.now) procedures.now) constants.now result }
{
    let mut found = Vec::new(alloc);
    let mut refusal = None;
    for unit in units {
        let row = add_function(alloc, unit, procedures, constants, &mut found)?;
        refusal = earlier_of(refusal, row);
    }
    unless_refused(found, refusal)
}
