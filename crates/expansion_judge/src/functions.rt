//! The statement functions of a unit with the nodes of their expanded expressions. Section 15.4.
#![tactic(auto)]

ghost use Rattle.std.specs.Prelude.{◌∷◌, [], OnOk, IfOk};
ghost use Rattle.f_tree.specs.declared.statements.Body as body;
ghost use Rattle.f_tree.specs.Attributes.{from_all, definitions_in};
ghost use Rattle.declaration_rows.specs.ExpansionRows.{sized_from};
ghost use Rattle.name_table.specs.Named.{names_in, IsNameSet};
ghost use Rattle.expansion_judge.specs.NodesCounted.{AreSized, Sizes, definition_of};

use crate::counts::count_nodes;
use f_tree::{Body, Expr, Stmt};
use name_table::{NameSet, NameTable};
use name_uses::assignments::{applied_name, defines_function};
use std::alloc::{AllocError, Global};

/// Notes the nodes of a statement function unless one of its name is noted already.
fn note_function<'a>(
    functions: &mut NameTable<'a, usize>,
    name: &'a [u8],
    value: &Expr,
) -> Result<(), AllocError>
    ensures { OnOk result (Sizes functions.old functions.new (definition_of name.now value.now ∷ [])) }
{
    if functions.get(name).is_some() {
        return Ok(());
    }
    let counted = count_nodes(functions, value);
    functions.put(name, counted.count)
}

/// Notes the statement function that an assignment defines, if it defines one.
fn note_definition<'a>(
    functions: &mut NameTable<'a, usize>,
    arrays: &NameSet,
    target: &'a Expr,
    value: &Expr,
) -> Result<(), AllocError>
    requires { IsNameSet arrays.now }
    ensures { OnOk result (Sizes functions.old functions.new (definitions_in (names_in arrays.now) (body.Assign target.now value.now))) }
{
    if !defines_function(arrays, target) {
        return Ok(());
    }
    match applied_name(target) {
        Some(name) => note_function(functions, name, value),
        None => Ok(()),
    }
}

/// Notes the statement function that a statement defines, if it defines one.
fn note_statement<'a>(
    functions: &mut NameTable<'a, usize>,
    arrays: &NameSet,
    body: &'a Body,
) -> Result<(), AllocError>
    requires { IsNameSet arrays.now }
    ensures { OnOk result (Sizes functions.old functions.new (definitions_in (names_in arrays.now) body.now)) }
{
    match body {
        Body::Assign(target, value) => note_definition(functions, arrays, target, value),
        _ => Ok(()),
    }
}

/// The nodes of the statement functions that statements define, each over those before it. An error where memory ran out.
pub(crate) fn function_table<'a>(
    alloc: Global,
    arrays: &NameSet,
    statements: &'a [Stmt],
) -> Result<NameTable<'a, usize>, AllocError>
    requires { IsNameSet arrays.now }
    ensures { IfOk result (λ functions. AreSized functions (sized_from [] (from_all (definitions_in (names_in arrays.now)) statements.now))) }
{
    let mut functions = NameTable::new(alloc);
    for statement in statements {
        note_statement(&mut functions, arrays, &statement.body)?;
    }
    Ok(functions)
}
