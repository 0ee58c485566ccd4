//! The uses of length `(*)` that a statement makes as it may not, and its lengths past the greatest. Sections 6.2, 10.4, 12.10 and 15.9.3.
#![tactic(auto)]

ghost use Rattle.std.specs.Prelude.{◌≡◌, IfOk};
ghost use Rattle.declaration_rows.specs.LengthRows as rows;
ghost use Rattle.declaration_rows.specs.ReferenceRows.{parts_of};
ghost use Rattle.f_tree.specs.declared.statements.ControlWord.TheVariants as word;
ghost use Rattle.statement_parts.specs.TreesSeen.{trees};
ghost use Rattle.length_judge.specs.FaultsSeen as spec;
ghost use Rattle.length_judge.specs.KnownNames.{AreKnown, constants_in, naming_in};
ghost use Rattle.length_judge.specs.LengthsSeen.{lengths_in};

use crate::expressions::{lengths, list_parts};
use crate::lengths::{Lengths, Parts, no_parts, with_part};
use crate::names::Names;
use f_tree::{Body, Control, ControlValue, ControlWord, Expr};
use statement_parts::add_expressions;
use std::alloc::{AllocError, Global};

/// What is refused of a statement by its lengths.
#[derive(Clone, Copy, Debug, PartialEq, Eq)]
pub(crate) struct Faults {
    /// It uses an operand of length `(*)` as it may not.
    pub misused: bool,
    /// A length in it is past the greatest.
    pub too_long: bool,
}

/// What is refused of expressions.
#[tactic(auto, unfolding(crate::specs::FaultsSeen::faults_of))]
fn faults_of(parts: Parts) -> Faults
    ensures { result ≡ spec.faults_of parts }
{
    Faults {
        misused: parts.misused,
        too_long: parts.too_long,
    }
}

/// What is refused of two parts of a statement.
#[tactic(auto, unfolding(crate::specs::FaultsSeen::both_faults))]
fn both_faults(one: Faults, other: Faults) -> Faults
    ensures { result ≡ spec.both_faults one other }
{
    Faults {
        misused: one.misused || other.misused,
        too_long: one.too_long || other.too_long,
    }
}

/// What is refused of an assignment. It may assign what it joins; where its left side has a reference, no operand of length `(*)` may stand in it.
/// Sections 6.2 and 10.4.
#[tactic(auto, unfolding(crate::specs::FaultsSeen::assigned_faults))]
fn assigned_faults(target: Lengths, value: Lengths) -> Faults
    ensures { result ≡ spec.assigned_faults target value }
{
    let reached = target.refers && (target.has_star || value.has_star);
    Faults {
        misused: (target.misused || target.joined) || (value.misused || reached),
        too_long: target.too_long || value.too_long,
    }
}

/// An assignment.
fn assignment_faults(
    alloc: Global,
    names: &Names,
    target: &Expr,
    value: &Expr,
) -> Result<Faults, AllocError>
    requires { AreKnown names.now }
    ensures { IfOk result (λ faults. faults ≡ spec.assigned_faults (lengths_in names.now target.now) (lengths_in names.now value.now)) }
{
    let one = lengths(alloc, names, target)?;
    let other = lengths(alloc, names, value)?;
    Ok(assigned_faults(one, other))
}

/// Some expressions as parts.
fn expressions_parts(alloc: Global, names: &Names, es: &[&Expr]) -> Result<Parts, AllocError>
    requires { AreKnown names.now }
    ensures { IfOk result (λ parts. parts ≡ spec.parts_in names.now (trees es.now)) }
{
    let mut parts = no_parts();
    for e in es {
        parts = with_part(parts, lengths(alloc, names, e)?);
    }
    Ok(parts)
}

/// The expressions of a statement as parts.
fn body_parts(alloc: Global, names: &Names, body: &Body) -> Result<Parts, AllocError>
    requires { AreKnown names.now }
    ensures { IfOk result (λ parts. parts ≡ spec.parts_in names.now (parts_of body.now).expressions) }
{
    let mut es = Vec::new(alloc);
    add_expressions(&mut es, body)?;
    expressions_parts(alloc, names, es.as_slice())
}

/// Whether an expression is an operand of length `(*)` in parentheses, and nothing else.
fn is_parenthesised(alloc: Global, names: &Names, e: &Expr) -> Result<bool, AllocError>
    requires { AreKnown names.now }
    ensures { IfOk result (λ alone. alone ≡ (lengths_in names.now e.now).parenthesised) }
{
    Ok(lengths(alloc, names, e)?.parenthesised)
}

/// Whether what stands behind FILE= is such an operand.
#[tactic(auto, unfolding(declaration_rows::specs::LengthRows::is_file_alone, crate::specs::LengthsSeen::lengths_in, crate::specs::LengthsSeen::seen))]
fn is_name_alone(alloc: Global, names: &Names, value: &ControlValue) -> Result<bool, AllocError>
    requires { AreKnown names.now }
    ensures { IfOk result (λ alone. alone ≡ rows.is_file_alone (naming_in names.now) (constants_in names.now) word.File value.now) }
{
    match value {
        ControlValue::Value(e) => is_parenthesised(alloc, names, e),
        ControlValue::Star | ControlValue::Label(_) => Ok(false),
    }
}

/// Whether such an operand stands behind FILE=. Section 12.10.1.
#[tactic(auto, unfolding(declaration_rows::specs::LengthRows::is_file_alone))]
fn is_file_alone(alloc: Global, names: &Names, control: &Control) -> Result<bool, AllocError>
    requires { AreKnown names.now }
    ensures { IfOk result (λ alone. alone
        ≡ rows.is_file_alone (naming_in names.now) (constants_in names.now) control.now.word control.now.value) }
{
    match control.word {
        ControlWord::File => is_name_alone(alloc, names, &control.value),
        ControlWord::Unit | ControlWord::Format | ControlWord::Status => Ok(false),
        ControlWord::OnError | ControlWord::OnEnd | ControlWord::FileStatus => Ok(false),
        ControlWord::Access | ControlWord::Form | ControlWord::Blank => Ok(false),
    }
}

/// Whether such an operand stands behind FILE= in a list of control information.
fn files_alone(alloc: Global, names: &Names, controls: &[Control]) -> Result<bool, AllocError>
    requires { AreKnown names.now }
    ensures { IfOk result (λ alone. alone ≡ rows.files_alone (naming_in names.now) (constants_in names.now) controls.now) }
{
    for control in controls {
        let alone = is_file_alone(alloc, names, control)?;
        if alone {
            return Ok(true);
        }
    }
    Ok(false)
}

/// Whether an argument of CALL is such an operand. Section 15.9.3.
#[tactic(auto, unfolding(crate::specs::FaultsSeen::parts_in))]
fn arguments_alone(alloc: Global, names: &Names, es: &[Expr]) -> Result<bool, AllocError>
    requires { AreKnown names.now }
    ensures { IfOk result (λ alone. alone ≡ (spec.parts_in names.now es.now).parenthesised) }
{
    Ok(list_parts(alloc, names, es)?.parenthesised)
}

/// Whether such an operand is an argument of CALL or stands behind FILE= in a statement.
#[tactic(auto, using(crate::proofs::FaultForms::alone_forms))]
fn stands_alone(alloc: Global, names: &Names, body: &Body) -> Result<bool, AllocError>
    requires { AreKnown names.now }
    ensures { IfOk result (λ alone. alone ≡ spec.alone_in names.now body.now) }
{
    match body {
        Body::Call(_, es) => arguments_alone(alloc, names, es.as_slice()),
        Body::Transfer(_, controls, _) => files_alone(alloc, names, controls.as_slice()),
        Body::Auxiliary(_, controls) => files_alone(alloc, names, controls.as_slice()),
        _ => Ok(false),
    }
}

/// A statement that is no assignment and has no statement in it.
#[tactic(auto, unfolding(crate::specs::FaultsSeen::plain_faults))]
fn plain_faults(alloc: Global, names: &Names, body: &Body) -> Result<Faults, AllocError>
    requires { AreKnown names.now }
    ensures { IfOk result (λ faults. faults ≡ spec.plain_faults names.now body.now) }
{
    let alone = stands_alone(alloc, names, body)?;
    let parts = body_parts(alloc, names, body)?;
    Ok(Faults {
        misused: alone || parts.misused,
        too_long: parts.too_long,
    })
}

/// What is refused of a statement, with that of the statement of a logical IF. An error where memory ran out, or where a length is past 64 bits,
/// for which no memory holds an expression.
#[cycle(statement)]
#[tactic(auto, using(crate::proofs::FaultForms::fault_forms))]
pub(crate) fn statement_faults(
    alloc: Global,
    names: &Names,
    body: &Body,
) -> Result<Faults, AllocError>
    requires { AreKnown names.now }
    ensures { IfOk result (λ faults. faults ≡ spec.faults_in names.now body.now) }
{
    match body {
        Body::Assign(target, value) => assignment_faults(alloc, names, target, value),
        Body::IfOne(test, statement) => {
            let found = lengths(alloc, names, test)?;
            let behind = statement_faults(alloc, names, statement.get())?;
            Ok(both_faults(faults_of(with_part(no_parts(), found)), behind))
        }
        _ => plain_faults(alloc, names, body),
    }
}
