//! The calls of statements. In the definition of a statement function its dummy arguments are known. Section 15.4.
#![tactic(auto)]

ghost use Rattle.std.specs.Prelude.{◌≡◌, ◌++◌, OnOk, IfOk, option_copied};
ghost use Rattle.call_shapes.specs.declaration_rows.NameRows.{known_in};
ghost use Rattle.call_shapes.specs.declaration_rows.ReferenceRows.{parts_of};
ghost use Rattle.declared_types.specs.TypeTables.{AreTypes};
ghost use Rattle.expression_judge.specs.SeenNames.{AreSeen};
ghost use Rattle.f_tree.specs.Uses.{heading_of};
ghost use Rattle.name_table.specs.Named.{names_in, IsNameSet};
ghost use Rattle.reference_judge.specs.KnownBindings.{known_with, defined_target};
ghost use Rattle.call_shapes.specs.CallsMade.{calls_among, calls_known, calls_of_statement};
ghost use Rattle.call_check.specs.CallsSeen.{seen_function, seen_calls};
ghost use Rattle.call_check.specs.KnownUnits.{AreKnown};

use crate::bindings::{bound_dummies, exchange};
use crate::expressions::{add_calls, add_each, add_list, add_subroutine_call};
use crate::known::KnownNames;
use call_shapes::NamedShape;
use declared_types::Types;
use expression_judge::Names;
use f_tree::{Body, Expr, Unit};
use name_table::NameSet;
use name_uses::assignments::{argument_names, defines_function};
use statement_parts::add_expressions;
use std::alloc::{AllocError, Global};

/// Adds the calls in the expressions of a statement.
fn add_parts(
    alloc: Global,
    names: &Names,
    body: &Body,
    calls: &mut Vec<NamedShape>,
) -> Result<(), AllocError>
    ensures { OnOk result (calls.new.items ≡ calls.old.items ++ calls_among (seen_function names.now) (parts_of body.now).expressions) }
{
    let mut es = Vec::new(alloc);
    add_expressions(&mut es, body)?;
    add_each(alloc, names, es.as_slice(), calls)
}

/// Adds the calls of a statement by what is known of the names in it: that of CALL before those in its arguments.
#[cycle(statement)]
fn add_known(
    alloc: Global,
    names: &Names,
    body: &Body,
    calls: &mut Vec<NamedShape>,
) -> Result<(), AllocError>
    ensures { OnOk result (calls.new.items ≡ calls.old.items ++ seen_calls names.now body.now) }
{
    match body {
        Body::Call(name, es) => {
            add_subroutine_call(alloc, names, name.as_slice(), es.as_slice(), calls)?;
            add_list(alloc, names, es.as_slice(), calls)
        }
        Body::IfOne(e, body) => {
            add_calls(alloc, names, e, calls)?;
            add_known(alloc, names, body.get(), calls)
        }
        _ => add_parts(alloc, names, body, calls),
    }
}

/// Adds the calls in the definition of a statement function.
fn add_definition<'a>(
    alloc: Global,
    unit: &Unit,
    types: &Types,
    names: &mut Names<'a>,
    target: &'a Expr,
    body: &'a Body,
    calls: &mut Vec<NamedShape>,
) -> Result<(), AllocError>
    requires types { AreTypes unit.now types.now }
    requires names { AreSeen (known_in unit.now) names.old }
    ensures calls { OnOk result (calls.new.items ≡ calls.old.items ++ calls_known (known_with unit.now (heading_of target.now).arguments) body.now) }
    ensures names { OnOk result (AreSeen (known_in unit.now) names.new) }
{
    let dummies = argument_names(alloc, target)?;
    let mut bound = bound_dummies(alloc, unit, types, dummies.as_slice())?;
    exchange(&mut names.dummies, &mut bound);
    add_known(alloc, names, body, calls)?;
    exchange(&mut names.dummies, &mut bound);
    Ok(())
}

/// The target of the assignment that defines a statement function, if the statement is one.
fn defined_target<'a>(arrays: &NameSet, body: &'a Body) -> Option<&'a Expr>
    requires { IsNameSet arrays.now }
    ensures { option_copied result ≡ defined_target (names_in arrays.now) body.now }
{
    match body {
        Body::Assign(target, _) => {
            if defines_function(arrays, target) {
                Some(target)
            } else {
                None
            }
        }
        _ => None,
    }
}

/// Adds the calls of a statement of a unit. What is known stays known.
fn add_statement<'a>(
    alloc: Global,
    unit: &Unit,
    known: &mut KnownNames<'a>,
    body: &'a Body,
    calls: &mut Vec<NamedShape>,
) -> Result<(), AllocError>
    requires { AreKnown unit.now known.old }
    ensures calls { OnOk result (calls.new.items ≡ calls.old.items ++ calls_of_statement unit.now body.now) }
    ensures known { OnOk result (AreKnown unit.now known.new) }
{
    match defined_target(&known.arrays, body) {
        Some(target) => add_definition(
            alloc,
            unit,
            &known.types,
            &mut known.names,
            target,
            body,
            calls,
        ),
        None => add_known(alloc, &known.names, body, calls),
    }
}

/// The calls of a statement of a unit, from the left. What is known of the names of the unit stays known. An error where memory ran out.
pub(crate) fn statement_calls<'a>(
    alloc: Global,
    unit: &Unit,
    known: &mut KnownNames<'a>,
    body: &'a Body,
) -> Result<Vec<NamedShape>, AllocError>
    requires { AreKnown unit.now known.old }
    ensures calls { IfOk result (λ calls. calls.items ≡ calls_of_statement unit.now body.now) }
    ensures known { OnOk result (AreKnown unit.now known.new) }
{
    let mut calls = Vec::new(alloc);
    add_statement(alloc, unit, known, body, &mut calls)?;
    Ok(calls)
}
