//! Format identifiers: character constants, variables, arrays, elements and substrings. Section 12.4.
#![tactic(auto)]

ghost use Rattle.std.specs.Prelude.{◌≡◌, IfOk, option_copied};
ghost use Rattle.f_tree.specs.Attributes.{option_list};
ghost use Rattle.f_tree.specs.Uses.{heading_of};
ghost use Rattle.declaration_rows.specs.FormatRows.{literal_of};
ghost use Rattle.format_judge.specs.FormatsFound as spec;

use crate::texts::text_fault;
use expression_judge::{Names, Operand, judge};
use f_tree::{Class, Expr, Kind};
use found_rows::unless;
use name_uses::assignments::name_alone;
use std::alloc::{AllocError, Global};

/// The text of a character constant.
#[tactic(auto, using(crate::proofs::LiteralForms::literal_forms))]
fn literal(e: &Expr) -> Option<&[u8]>
    ensures { option_copied result ≡ literal_of e.now }
{
    match e {
        Expr::Text(text) => Some(text.as_slice()),
        Expr::Int(_) | Expr::Logical(_) | Expr::Name(_) | Expr::Apply(..) => None,
        Expr::Part(..) | Expr::Minus(_) | Expr::Plus(_) | Expr::Not(_) => None,
        Expr::Paren(_) | Expr::Binary(..) | Expr::AltReturn(_) => None,
        Expr::Bind(..) | Expr::Bound(_) => None,
    }
}

/// Whether a class is that of constants.
#[tactic(auto, unfolding(crate::specs::FormatsFound::is_constant_class))]
fn is_constant_class(class: Class) -> bool
    ensures { result ≡ spec.is_constant_class class }
{
    match class {
        Class::Constant => true,
        Class::Stored | Class::Dummy | Class::Result | Class::Procedure => false,
        Class::DummyProcedure | Class::StatementFunction | Class::Intrinsic => false,
        Class::Unit => false,
    }
}

/// Whether an expression is the name of a constant.
#[tactic(auto, unfolding(crate::specs::FormatsFound::is_constant_name))]
fn is_constant_name(names: &Names, e: &Expr) -> bool
    ensures { result ≡ spec.is_constant_name names.now (heading_of e.now).alone }
{
    match name_alone(e) {
        Some(name) => is_constant_class(names.fact(name).class),
        None => false,
    }
}

/// Whether an operand may be a format identifier; what is no operand at all is told elsewhere.
#[tactic(auto, unfolding(crate::specs::FormatsFound::is_identifier))]
fn is_identifier(operand: Operand) -> bool
    ensures { result ≡ spec.is_identifier operand }
{
    match operand {
        Operand::Place | Operand::Array(_) | Operand::Nothing => true,
        Operand::Value | Operand::ProcedureName | Operand::FunctionName => false,
        Operand::Exit(_) => false,
    }
}

/// Whether an expression that is no character constant may be a format identifier.
#[tactic(auto, unfolding(crate::specs::FormatsFound::identifies))]
fn identifies(names: &Names, e: &Expr) -> bool
    ensures { result ≡ spec.identifies names.now e.now }
{
    is_constant_name(names, e) || is_identifier(judge(names, e).what)
}

/// The row that a format identifier breaks, if it breaks one. An error where memory ran out.
#[tactic(auto, unfolding(crate::specs::FormatsFound::identifier_found))]
pub(crate) fn identifier_fault(
    alloc: Global,
    names: &Names,
    e: &Expr,
) -> Result<Option<Kind>, AllocError>
    ensures { IfOk result (λ fault. option_list fault ≡ spec.identifier_found names.now e.now (literal_of e.now)) }
{
    match literal(e) {
        Some(text) => text_fault(alloc, text),
        None => Ok(unless(identifies(names, e), Kind::BadFormat)),
    }
}
