//! Which names of a set of files stand for two things (F51), and which main program is one too many (F52). Sections 2.4 and 18.1. Each name
//! is looked up once among those before it.
#![tactic(auto)]

ghost use Rattle.std.specs.Prelude.{◌≡◌, ◌++◌, ◌∷◌, ◌&&◌, ◌||◌, [], not, OnOk, IfOk, map, true, false};
ghost use Rattle.f_tree.specs.declared.refusals.Kind.TheVariants.{GlobalNameTwice, TwoMainPrograms};
ghost use Rattle.declaration_rows.specs.Judgement.{unless};
ghost use Rattle.declaration_rows.specs.Verdicts.{first_of};
ghost use Rattle.declaration_rows.specs.GlobalRows.{refused_at, global_rows, is_main_program, main_rows, all_units, units_global_rows};
ghost use Rattle.set_judge.specs.GlobalSteps.{globals_in, still_block, clashes_with, main_found};

use crate::globals::{GlobalName, global_names};
use f_tree::{File, Kind, Refusal, Unit, UnitKind};
use found_rows::first_of;
use name_table::NameTable;
use std::alloc::{AllocError, Global};

/// Whether a name stands for two things, given whether all that it stood for before are common blocks.
#[tactic(auto, unfolding(crate::specs::GlobalSteps::clashes_with))]
fn clashes(before: Option<bool>, is_block: bool) -> bool
    ensures { result ≡ clashes_with before is_block }
{
    match before {
        Some(are_blocks) => !(is_block && are_blocks),
        None => false,
    }
}

/// Whether all that a name stood for before are common blocks.
#[tactic(auto, unfolding(crate::specs::GlobalSteps::still_block))]
fn still_block(before: Option<bool>) -> bool
    ensures { result ≡ still_block before }
{
    match before {
        Some(are_blocks) => are_blocks,
        None => true,
    }
}

/// Whether all that a name stands for now are common blocks.
fn is_block_still(before: Option<bool>, is_block: bool) -> bool
    ensures { result ≡ (is_block && still_block before) }
{
    is_block && still_block(before)
}

/// Adds a row where it holds.
#[tactic(auto, unfolding(declaration_rows::specs::GlobalRows::refused_at, declaration_rows::specs::Judgement::unless))]
fn add_row(
    found: &mut Vec<Refusal>,
    holds: bool,
    file: usize,
    card: u32,
    kind: Kind,
) -> Result<(), AllocError>
    ensures { OnOk result (found.new.items ≡ found.old.items ++ map (refused_at file card) (unless (not holds) kind)) }
{
    if holds {
        found.push(Refusal { file, card, kind })?;
    }
    Ok(())
}

/// Adds the rows of the names that stand for two things, each behind those before it.
fn add_name_rows(
    alloc: Global,
    found: &mut Vec<Refusal>,
    names: &[GlobalName],
) -> Result<(), AllocError>
    ensures { OnOk result (found.new.items ≡ found.old.items ++ global_rows [] (globals_in names.now)) }
{
    let mut seen: NameTable<bool> = NameTable::new(alloc);
    for name in names {
        let before = seen.get(name.name);
        let twice = clashes(before, name.is_block);
        add_row(found, twice, name.file, name.card, Kind::GlobalNameTwice)?;
        seen.put(name.name, is_block_still(before, name.is_block))?;
    }
    Ok(())
}

/// Whether a unit is a main program.
#[tactic(auto, unfolding(declaration_rows::specs::GlobalRows::is_main_program))]
fn is_main_program(unit: &Unit) -> bool
    ensures { result ≡ is_main_program unit.now }
{
    match &unit.kind {
        UnitKind::Main => true,
        UnitKind::Subroutine | UnitKind::Function(_) | UnitKind::BlockData => false,
    }
}

/// Whether a unit is a main program behind another one.
fn is_second(main: bool, unit: &Unit) -> bool
    ensures { result ≡ (main && is_main_program unit.now) }
{
    main && is_main_program(unit)
}

/// Whether a main program has stood behind a unit.
fn has_stood(main: bool, unit: &Unit) -> bool
    ensures { result ≡ (main || is_main_program unit.now) }
{
    main || is_main_program(unit)
}

/// Adds the rows of the main programs of a file that stand behind another one, and says whether one has stood now.
fn add_main_rows(found: &mut Vec<Refusal>, before: bool, units: &[Unit]) -> Result<bool, AllocError>
    ensures rows { OnOk result (found.new.items ≡ found.old.items ++ main_rows before units.now) }
    ensures stood { IfOk result (λ now. now ≡ main_found before units.now) }
{
    let mut main = before;
    for unit in units {
        let second = is_second(main, unit);
        add_row(found, second, unit.file, unit.card, Kind::TwoMainPrograms)?;
        main = has_stood(main, unit);
    }
    Ok(main)
}

/// Adds the rows of the main programs of files that stand behind another one.
fn add_mains_rows(found: &mut Vec<Refusal>, files: &[File]) -> Result<(), AllocError>
    ensures { OnOk result (found.new.items ≡ found.old.items ++ main_rows false (all_units files.now)) }
{
    let mut main = false;
    for file in files {
        main = add_main_rows(found, main, file.units.as_slice())?;
    }
    Ok(())
}

/// The first refusal of files by the names that their units share and by the number of their main programs. An error where memory ran out.
#[tactic(auto, unfolding(declaration_rows::specs::GlobalRows::units_global_rows))]
pub fn global_fault(alloc: Global, files: &[File]) -> Result<Option<Refusal>, AllocError>
    ensures { IfOk result (λ found. found ≡ first_of (units_global_rows (all_units files.now))) }
{
    let mut found = Vec::new(alloc);
    let names = global_names(alloc, files)?;
    add_name_rows(alloc, &mut found, names.as_slice())?;
    add_mains_rows(&mut found, files)?;
    Ok(first_of(found.as_slice()))
}
