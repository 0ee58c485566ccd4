//! The first refusal of a unit by its formats (F44, F45). Sections 12.4, 13.1 and 13.5.
#![tactic(auto)]

ghost use Rattle.std.specs.Prelude.{◌≡◌, ◌++◌, OnOk, IfOk};
ghost use Rattle.declaration_rows.specs.FormatRows.{format_text_rows, unit_format_rows};
ghost use Rattle.declaration_rows.specs.NameRows.{known_in, stood};
ghost use Rattle.declaration_rows.specs.Verdicts.{first_of};
ghost use Rattle.expression_judge.specs.SeenNames.{AreSeen};
ghost use Rattle.f_tree.specs.Attributes.{option_list};
ghost use Rattle.format_judge.specs.FormatsFound as spec;

use crate::identifiers::identifier_fault;
use crate::texts::text_fault;
use expression_judge::Names;
use f_tree::{Body, Control, ControlValue, ControlWord, Kind, Refusal, Stmt, Unit};
use found_rows::{add_option, first_of};
use std::alloc::{AllocError, Global};

/// The row that what stands behind a control word breaks as a format identifier, if it breaks one.
#[tactic(auto, unfolding(crate::specs::FormatsFound::word_found, f_tree::specs::Attributes::option_list))]
fn word_fault(
    alloc: Global,
    names: &Names,
    word: ControlWord,
    value: &ControlValue,
) -> Result<Option<Kind>, AllocError>
    ensures { IfOk result (λ fault. option_list fault ≡ spec.word_found names.now word value.now) }
{
    match word {
        ControlWord::Format => value_fault(alloc, names, value),
        ControlWord::Unit | ControlWord::Status | ControlWord::OnError => Ok(None),
        ControlWord::OnEnd | ControlWord::File | ControlWord::FileStatus => Ok(None),
        ControlWord::Access | ControlWord::Form | ControlWord::Blank => Ok(None),
    }
}

/// The row that what stands behind FMT breaks, if it breaks one.
#[tactic(auto, unfolding(crate::specs::FormatsFound::value_found, f_tree::specs::Attributes::option_list))]
fn value_fault(
    alloc: Global,
    names: &Names,
    value: &ControlValue,
) -> Result<Option<Kind>, AllocError>
    ensures { IfOk result (λ fault. option_list fault ≡ spec.value_found names.now value.now) }
{
    match value {
        ControlValue::Value(e) => identifier_fault(alloc, names, e),
        ControlValue::Star | ControlValue::Label(_) => Ok(None),
    }
}

/// Adds the row of a control word.
fn add_word_row(
    alloc: Global,
    found: &mut Vec<Refusal>,
    names: &Names,
    statement: &Stmt,
    control: &Control,
) -> Result<(), AllocError>
    ensures { OnOk result (found.new.items ≡ found.old.items ++ stood statement.now (spec.word_found names.now control.now.word control.now.value)) }
{
    let fault = word_fault(alloc, names, control.word, &control.value)?;
    add_option(found, statement, fault)
}

/// Adds the rows of the control words of READ, WRITE or PRINT.
fn add_words_rows(
    alloc: Global,
    found: &mut Vec<Refusal>,
    names: &Names,
    statement: &Stmt,
    controls: &[Control],
) -> Result<(), AllocError>
    ensures { OnOk result (found.new.items ≡ found.old.items ++ stood statement.now (spec.words_found names.now controls.now)) }
{
    for control in controls {
        add_word_row(alloc, found, names, statement, control)?;
    }
    Ok(())
}

/// Adds the row of the text of a FORMAT statement.
fn add_text_row(
    alloc: Global,
    found: &mut Vec<Refusal>,
    statement: &Stmt,
    text: &[u8],
) -> Result<(), AllocError>
    ensures { OnOk result (found.new.items ≡ found.old.items ++ stood statement.now (format_text_rows text.now)) }
{
    let fault = text_fault(alloc, text)?;
    add_option(found, statement, fault)
}

/// Adds the rows of a statement, also of one in a logical IF.
#[cycle(body)]
fn add_body_rows(
    alloc: Global,
    found: &mut Vec<Refusal>,
    names: &Names,
    statement: &Stmt,
    body: &Body,
) -> Result<(), AllocError>
    ensures { OnOk result (found.new.items ≡ found.old.items ++ stood statement.now (spec.body_found names.now body.now)) }
{
    match body {
        Body::Format(text) => add_text_row(alloc, found, statement, text.as_slice()),
        Body::Transfer(_, controls, _) => {
            add_words_rows(alloc, found, names, statement, controls.as_slice())
        }
        Body::IfOne(_, body) => add_body_rows(alloc, found, names, statement, body.get()),
        _ => Ok(()),
    }
}

/// Adds the rows of statements.
fn add_rows(
    alloc: Global,
    found: &mut Vec<Refusal>,
    names: &Names,
    statements: &[Stmt],
) -> Result<(), AllocError>
    ensures { OnOk result (found.new.items ≡ found.old.items ++ spec.rows_found names.now statements.now) }
{
    for statement in statements {
        add_body_rows(alloc, found, names, statement, &statement.body)?;
    }
    Ok(())
}

/// The first refusal of a unit by its formats and format identifiers (F44, F45), given what is known of its names. An error where memory ran
/// out. Sections 12.4, 13.1 and 13.5.
pub fn format_fault(
    alloc: Global,
    unit: &Unit,
    names: &Names,
) -> Result<Option<Refusal>, AllocError>
    requires { AreSeen (known_in unit.now) names.now }
    ensures { IfOk result (λ found. found ≡ first_of (unit_format_rows unit.now)) }
{
    let mut found = Vec::new(alloc);
    add_rows(alloc, &mut found, names, unit.statements.as_slice())?;
    Ok(first_of(found.as_slice()))
}
