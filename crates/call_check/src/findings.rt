//! The calls of a set that disagree with what they call, as they stand in its units.
#![tactic(auto)]

ghost use Rattle.std.specs.Prelude.{◌≡◌, ◌++◌, [], OnOk, IfOk, if◌then◌else◌};
ghost use Rattle.std.specs.List.{list_any};
ghost use Rattle.call_shapes.specs.declaration_rows.GlobalRows.{all_units};
ghost use Rattle.call_shapes.specs.Disagreements as spec;
ghost use Rattle.call_check.specs.KnownUnits.{AreKnown};

use crate::known::{KnownNames, known_names};
use crate::reasons::reason_of;
use crate::statements::statement_calls;
use call_shapes::{Finding, NamedShape, Reason};
use f_tree::{File, Stmt, Unit};
use plain_data::Items;
use std::alloc::{AllocError, Global};

/// What calls are compared with: the procedures of the set, and the lines of prototypes.
#[derive(Clone, Copy)]
pub(crate) struct Counterparts<'a> {
    pub procedures: &'a [NamedShape],
    pub lines: &'a [NamedShape],
}

/// Adds what is found of a call of a name in a statement.
#[tactic(auto, unfolding(call_shapes::specs::Disagreements::found_at))]
fn add_reason(
    alloc: Global,
    statement: &Stmt,
    name: &[u8],
    reason: Option<Reason>,
    findings: &mut Vec<Finding>,
) -> Result<(), AllocError>
    ensures { OnOk result (findings.new.items ≡ findings.old.items ++ spec.found_at statement.now name.now reason) }
{
    let Some(reason) = reason else {
        return Ok(());
    };
    let name = Items::from_slice(alloc, name)?;
    findings.push(Finding {
        file: statement.file,
        card: statement.card,
        name,
        reason,
    })?;
    Ok(())
}

/// Adds what is found of a call in a statement.
fn add_call(
    alloc: Global,
    counterparts: Counterparts,
    statement: &Stmt,
    call: &NamedShape,
    findings: &mut Vec<Finding>,
) -> Result<(), AllocError>
    ensures { OnOk result (findings.new.items
        ≡ findings.old.items ++ spec.found_at statement.now call.now.name (spec.reason_of counterparts.entry.procedures.now counterparts.entry.lines.now call.now)) }
{
    let reason = reason_of(alloc, counterparts.procedures, counterparts.lines, call)?;
    add_reason(alloc, statement, call.name.as_slice(), reason, findings)
}

/// Adds what is found of the calls of a statement.
fn add_calls(
    alloc: Global,
    counterparts: Counterparts,
    statement: &Stmt,
    calls: &[NamedShape],
    findings: &mut Vec<Finding>,
) -> Result<(), AllocError>
    ensures { OnOk result (findings.new.items
        ≡ findings.old.items ++ spec.call_findings counterparts.entry.procedures.now counterparts.entry.lines.now statement.now calls.now) }
{
    for call in calls {
        add_call(alloc, counterparts, statement, call, findings)?;
    }
    Ok(())
}

/// Whether a statement stands at the place of another one: it is included once more.
#[tactic(auto, unfolding(call_shapes::specs::Disagreements::is_at))]
fn is_at(statement: &Stmt, other: &Stmt) -> bool
    ensures { result ≡ spec.is_at statement.now other.now }
{
    other.file == statement.file && other.card == statement.card
}

/// Whether a statement stands at the place of one of some others.
fn is_again(statement: &Stmt, before: &[Stmt]) -> bool
    ensures { result ≡ list_any (spec.is_at statement.now) before.now }
{
    before.iter().any(|other| is_at(statement, other))
}

/// Adds what is found of the calls of a statement, given the statements before it in its unit: nothing where it is included once more.
fn add_unless_again(
    alloc: Global,
    counterparts: Counterparts,
    before: &[Stmt],
    statement: &Stmt,
    calls: &[NamedShape],
    findings: &mut Vec<Finding>,
) -> Result<(), AllocError>
    ensures { OnOk result (findings.new.items ≡ findings.old.items ++ (if list_any (spec.is_at statement.now) before.now then []
        else spec.call_findings counterparts.entry.procedures.now counterparts.entry.lines.now statement.now calls.now)) }
{
    if calls.is_empty() {
        return Ok(());
    }
    if is_again(statement, before) {
        return Ok(());
    }
    add_calls(alloc, counterparts, statement, calls, findings)
}

/// Adds what is found of a statement of a unit, given the statements before it. What is known stays known.
fn add_statement<'a>(
    alloc: Global,
    counterparts: Counterparts,
    unit: &Unit,
    known: &mut KnownNames<'a>,
    before: &[Stmt],
    statement: &'a Stmt,
    findings: &mut Vec<Finding>,
) -> Result<(), AllocError>
    requires { AreKnown unit.now known.old }
    ensures findings { OnOk result (findings.new.items
        ≡ findings.old.items ++ spec.statement_findings counterparts.entry.procedures.now counterparts.entry.lines.now unit.now before.now statement.now) }
    ensures known { OnOk result (AreKnown unit.now known.new) }
{
    let calls = statement_calls(alloc, unit, known, &statement.body)?;
    let listed = calls.as_slice();
    add_unless_again(alloc, counterparts, before, statement, listed, findings)
}

/// Adds what is found of the statements of a unit, given what is known of its names.
fn add_statements<'a>(
    alloc: Global,
    counterparts: Counterparts,
    unit: &Unit,
    known: &mut KnownNames<'a>,
    statements: &'a [Stmt],
    findings: &mut Vec<Finding>,
) -> Result<(), AllocError>
    requires { AreKnown unit.now known.old }
    ensures { OnOk result (findings.new.items
        ≡ findings.old.items ++ spec.unit_findings counterparts.entry.procedures.now counterparts.entry.lines.now unit.now [] statements.now) }
{
    for (index, statement) in statements.iter().enumerate() {
        let before = &statements[..index];
        add_statement(
            alloc,
            counterparts,
            unit,
            known,
            before,
            statement,
            findings,
        )?;
    }
    Ok(())
}

/// Adds what is found of a unit.
fn add_unit(
    alloc: Global,
    counterparts: Counterparts,
    unit: &Unit,
    findings: &mut Vec<Finding>,
) -> Result<(), AllocError>
    ensures { OnOk result (findings.new.items
        ≡ findings.old.items ++ spec.unit_findings counterparts.entry.procedures.now counterparts.entry.lines.now unit.now [] unit.now.statements) }
{
    let mut known = known_names(alloc, unit)?;
    let statements = unit.statements.as_slice();
    add_statements(alloc, counterparts, unit, &mut known, statements, findings)
}

/// Adds what is found of some units.
fn add_units(
    alloc: Global,
    counterparts: Counterparts,
    units: &[Unit],
    findings: &mut Vec<Finding>,
) -> Result<(), AllocError>
    ensures { OnOk result (findings.new.items
        ≡ findings.old.items ++ spec.units_findings counterparts.entry.procedures.now counterparts.entry.lines.now units.now) }
{
    for unit in units {
        add_unit(alloc, counterparts, unit, findings)?;
    }
    Ok(())
}

/// What is found of the units of some files, in their order. An error where memory ran out.
pub(crate) fn findings_of(
    alloc: Global,
    counterparts: Counterparts,
    files: &[File],
) -> Result<Vec<Finding>, AllocError>
    ensures { IfOk result (λ findings. findings.items
        ≡ spec.units_findings counterparts.entry.procedures.now counterparts.entry.lines.now (all_units files.now)) }
{
    let mut findings = Vec::new(alloc);
    for file in files {
        add_units(alloc, counterparts, file.units.as_slice(), &mut findings)?;
    }
    Ok(findings)
}
