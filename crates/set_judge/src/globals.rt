//! The global names of a set of files, each where it stands. Section 18.1.
#![tactic(auto)]

ghost use Rattle.std.specs.Prelude.{◌≡◌, ◌++◌, ◌∷◌, [], OnOk, IfOk, map, true, false};
ghost use Rattle.f_tree.specs.Attributes.{option_list, entry_names_in};
ghost use Rattle.f_tree.specs.Lines.{common_in};
ghost use Rattle.declaration_rows.specs.GlobalRows.{Global, global_at, block_names, globals_of_statements, globals_of_unit, all_units, globals_of};
ghost use Rattle.set_judge.specs.GlobalSteps.{globals_in, global_of};

use f_tree::{Body, CommonGroup, File, Stmt, Unit};
use std::alloc::{AllocError, Global};

/// A global name where it stands: that of a unit or an entry, or that of a common block.
#[derive(Clone, Copy)]
pub(crate) struct GlobalName<'a> {
    pub name: &'a [u8],
    pub is_block: bool,
    pub file: usize,
    pub card: u32,
}

/// Adds a name that stands in a statement.
#[tactic(auto, unfolding(declaration_rows::specs::GlobalRows::global_at, crate::specs::GlobalSteps::global_of))]
fn add_name<'a>(
    names: &mut Vec<GlobalName<'a>>,
    statement: &Stmt,
    is_block: bool,
    name: &'a [u8],
) -> Result<(), AllocError>
    ensures { OnOk result (globals_in names.new.items ≡ globals_in names.old.items ++ global_at statement.now is_block name.now ∷ []) }
{
    names.push(GlobalName {
        name,
        is_block,
        file: statement.file,
        card: statement.card,
    })?;
    Ok(())
}

/// Adds the name of an ENTRY statement.
#[tactic(auto, unfolding(f_tree::specs::Attributes::entry_names_in, f_tree::specs::Folds::layer_of))]
fn add_entry_name<'a>(
    names: &mut Vec<GlobalName<'a>>,
    statement: &'a Stmt,
) -> Result<(), AllocError>
    ensures { OnOk result (globals_in names.new.items
        ≡ globals_in names.old.items ++ map (global_at statement.now false) (entry_names_in statement.now.body)) }
{
    match &statement.body {
        Body::Entry(name, _) => add_name(names, statement, false, name.as_slice()),
        _ => Ok(()),
    }
}

/// Adds the name of a common block, which blank common has not.
#[tactic(auto, unfolding(f_tree::specs::Attributes::option_list))]
fn add_block_name<'a>(
    names: &mut Vec<GlobalName<'a>>,
    statement: &Stmt,
    group: &'a CommonGroup,
) -> Result<(), AllocError>
    ensures { OnOk result (globals_in names.new.items
        ≡ globals_in names.old.items ++ map (global_at statement.now true) (option_list group.now.block)) }
{
    match &group.block {
        Some(name) => add_name(names, statement, true, name.as_slice()),
        None => Ok(()),
    }
}

/// Adds the names of the common blocks of a COMMON statement.
fn add_group_names<'a>(
    names: &mut Vec<GlobalName<'a>>,
    statement: &Stmt,
    groups: &'a [CommonGroup],
) -> Result<(), AllocError>
    ensures { OnOk result (globals_in names.new.items
        ≡ globals_in names.old.items ++ map (global_at statement.now true) (block_names groups.now)) }
{
    for group in groups {
        add_block_name(names, statement, group)?;
    }
    Ok(())
}

/// Adds the names of the common blocks of a statement.
#[tactic(auto, unfolding(f_tree::specs::Lines::common_in, f_tree::specs::Folds::layer_of, declaration_rows::specs::GlobalRows::block_names))]
fn add_block_names<'a>(
    names: &mut Vec<GlobalName<'a>>,
    statement: &'a Stmt,
) -> Result<(), AllocError>
    ensures { OnOk result (globals_in names.new.items
        ≡ globals_in names.old.items ++ map (global_at statement.now true) (block_names (common_in statement.now.body))) }
{
    match &statement.body {
        Body::Common(groups) => add_group_names(names, statement, groups.as_slice()),
        _ => Ok(()),
    }
}

/// Adds the global names that statements give.
fn add_statement_names<'a>(
    names: &mut Vec<GlobalName<'a>>,
    statements: &'a [Stmt],
) -> Result<(), AllocError>
    ensures { OnOk result (globals_in names.new.items ≡ globals_in names.old.items ++ globals_of_statements statements.now) }
{
    for statement in statements {
        add_entry_name(names, statement)?;
        add_block_names(names, statement)?;
    }
    Ok(())
}

/// Adds the name of a unit, if it has one.
#[tactic(auto, unfolding(f_tree::specs::Attributes::option_list, crate::specs::GlobalSteps::global_of))]
fn add_own_name<'a>(names: &mut Vec<GlobalName<'a>>, unit: &'a Unit) -> Result<(), AllocError>
    ensures { OnOk result (globals_in names.new.items
        ≡ globals_in names.old.items
        ++ map (λ x. record { name = x; is_block = false; file = unit.now.file; card = unit.now.card }) (option_list unit.now.name)) }
{
    match &unit.name {
        Some(name) => {
            names.push(GlobalName {
                name: name.as_slice(),
                is_block: false,
                file: unit.file,
                card: unit.card,
            })?;
            Ok(())
        }
        None => Ok(()),
    }
}

/// Adds the global names that a unit gives.
#[tactic(auto, unfolding(declaration_rows::specs::GlobalRows::globals_of_unit))]
fn add_unit_names<'a>(names: &mut Vec<GlobalName<'a>>, unit: &'a Unit) -> Result<(), AllocError>
    ensures { OnOk result (globals_in names.new.items ≡ globals_in names.old.items ++ globals_of_unit unit.now) }
{
    add_own_name(names, unit)?;
    add_statement_names(names, unit.statements.as_slice())
}

/// Adds the global names that the units of a file give.
fn add_units_names<'a>(names: &mut Vec<GlobalName<'a>>, units: &'a [Unit]) -> Result<(), AllocError>
    ensures { OnOk result (globals_in names.new.items ≡ globals_in names.old.items ++ globals_of units.now) }
{
    for unit in units {
        add_unit_names(names, unit)?;
    }
    Ok(())
}

/// The global names that the units of files give, in their order.
pub(crate) fn global_names<'a>(
    alloc: Global,
    files: &'a [File],
) -> Result<Vec<GlobalName<'a>>, AllocError>
    ensures { IfOk result (λ names. globals_in names.items ≡ globals_of (all_units files.now)) }
{
    let mut names = Vec::new(alloc);
    for file in files {
        add_units_names(&mut names, file.units.as_slice())?;
    }
    Ok(names)
}
