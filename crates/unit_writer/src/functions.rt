//! The C function of a program unit, with its statements. Sections 15.5 and 15.6; C89, 3.7.1; CSTR 149.

ghost use Rattle.std.specs.HashMap.{get_by};
ghost use Rattle.std.specs.Prelude.{◌≡◌, IfOk, map, bytes_eq};
ghost use Rattle.unit_translation.specs.UnitContents as contents;
ghost use Rattle.unit_writer.specs.Functions as spec;

use crate::heading::{Dummy, Heading, Procedure, UnitRole};
use crate::locals::locals;
use c_names::{external_name, variable_name};
use c_tree::declaration::CParam;
use c_tree::expression::Text;
use c_tree::file::CFunction;
use c_tree::statement::CStmt;
use c_tree::types::ResultType;
use f_tree::Basic;
use indexmap::IndexMap;
use name_facts::NameFacts;
use plain_data::Items;
use std::alloc::{AllocError, Global};
use unit_contents::Contents;

/// The name of the function.
#[tactic(auto, unfolding(crate::specs::Functions::name_told))]
fn name(alloc: Global, role: UnitRole, name: &[u8]) -> Result<Text, AllocError>
    ensures { IfOk result (λ text. text ≡ spec.name_told role name.now) }
{
    match role {
        UnitRole::Main => Items::from_slice(alloc, b"MAIN__"),
        UnitRole::Subroutine => external_name(alloc, name),
        UnitRole::Function => external_name(alloc, name),
    }
}

/// What the function gives: a number of a type, or the number of an alternate return.
#[tactic(auto, unfolding(unit_translation::specs::UnitContents::result_by, procedure_emission::specs::EmittedUnits::number_result))]
fn result_type(basic: Option<Basic>) -> ResultType
    ensures { result ≡ contents.result_by basic }
{
    match basic {
        Some(Basic::Logical) => ResultType::Logical,
        Some(Basic::Integer | Basic::Character | Basic::Untyped) => ResultType::Integer,
        None => ResultType::Int,
    }
}

/// The type of what a function gives; none for what is no function.
#[tactic(auto, unfolding(crate::specs::Functions::basic_told))]
pub(crate) fn basic_given(table: &NameFacts, role: UnitRole, name: &[u8]) -> Option<Basic>
    ensures { result ≡ spec.basic_told table.now role name.now }
{
    match role {
        UnitRole::Main => None,
        UnitRole::Subroutine => None,
        UnitRole::Function => Some(table.basic(name)),
    }
}

/// The parameters for dummy arguments.
fn parameters(alloc: Global, dummies: &[Dummy]) -> Result<Items<CParam>, AllocError>
    ensures { IfOk result (λ found. found ≡ map spec.parameter_told dummies.now) }
{
    let mut found = Vec::new(alloc);
    for dummy in dummies {
        let name = variable_name(alloc, dummy.name)?;
        found.push(CParam {
            of: dummy.parameter,
            name,
        })?;
    }
    Ok(Items::from_vec(found))
}

/// The function, with its statements.
///
/// # Errors
///
/// Want of memory, a dimension that has no number, or an array of more elements than a number has room for.
#[tactic(auto, unfolding(crate::specs::Functions::function_by))]
pub(crate) fn function(
    alloc: Global,
    table: &NameFacts,
    names: &[&[u8]],
    heading: &Heading,
    procedures: &IndexMap<&[u8], Procedure>,
    contents: &Contents,
    body: Items<CStmt>,
) -> Result<CFunction, AllocError>
    ensures { IfOk result (λ found. found ≡ spec.function_by table.now (map (λ name. name.now) names.now) heading.now (λ x. get_by (λ k. bytes_eq x k.now) procedures.now) contents.now body) }
{
    let basic = basic_given(table, heading.role, heading.name);
    Ok(CFunction {
        result: result_type(basic),
        name: name(alloc, heading.role, heading.name)?,
        params: parameters(alloc, &heading.dummies)?,
        locals: locals(
            alloc,
            table,
            names,
            basic,
            &heading.bounds,
            procedures,
            contents,
        )?,
        body,
    })
}
