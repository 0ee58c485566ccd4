//! Statements by their forms.

ghost use Rattle.std.specs.Prelude.{◌≡◌, None, option_map};
ghost use Rattle.f_tree.specs.Uses.{heading_of};
ghost use Rattle.f_tree.specs.WellTyped as callees;
ghost use Rattle.expression_judge.specs.FoundSteps.{judged_by};
ghost use Rattle.statement_judge.specs.StatementSteps as spec;

use crate::controls::{controls, has_format, has_unit};
use crate::lists::listed;
use crate::loops::{condition, integer, loop_control, optional};
use crate::site::{Broken, Site};
use crate::targets::{assigned, branch, branches, variable};
use expression_judge::{Operand, intrinsic_named, judge};
use f_tree::{Body, Class, Control, Direction, Expr, Kind, ListItem, Text};
use kind_order::unless;
use refusal_order::lesser_of;

/// A statement by its least row.
#[tactic(auto, unfolding(crate::specs::StatementSteps::breaks_least))]
fn breaks(rows: Option<Kind>) -> Broken
    ensures { result ≡ spec.breaks_least rows }
{
    Broken {
        rows,
        guarded: None,
    }
}

/// What is no statement of a logical IF, by its least row. Section 11.5.
#[tactic(auto, unfolding(crate::specs::StatementSteps::breaks_alone_least))]
fn breaks_alone(rows: Option<Kind>) -> Broken
    ensures { result ≡ spec.breaks_alone_least rows }
{
    Broken {
        rows,
        guarded: Some(Kind::SyntaxError),
    }
}

/// The name that stands with a list on the left of an assignment.
#[tactic(auto, using(crate::proofs::StatementForms::heading_forms))]
fn applied_name(target: &Expr) -> Option<&[u8]>
    ensures { option_map (λ x. x.now) result ≡ (heading_of target.now).applied }
{
    match target {
        Expr::Apply(name, _) => Some(name.as_slice()),
        Expr::Int(_) | Expr::Logical(_) | Expr::Text(_) | Expr::Name(_) => None,
        Expr::Part(_, _, _) | Expr::Minus(_) | Expr::Plus(_) | Expr::Not(_) => None,
        Expr::Paren(_) | Expr::Binary(_, _, _) | Expr::AltReturn(_) => None,
        Expr::Bind(_, _) | Expr::Bound(_) => None,
    }
}

/// Whether an assignment to a name with a list defines a statement function. Section 15.4.
#[tactic(auto, unfolding(crate::specs::StatementSteps::defines_by))]
fn defines(site: &Site, target: &Expr) -> bool
    ensures { result ≡ spec.defines_by site.now (heading_of target.now).applied }
{
    match applied_name(target) {
        Some(name) => matches!(site.names.fact(name).class, Class::StatementFunction),
        None => false,
    }
}

/// An assignment, or the definition of a statement function, which is judged with the names. Sections 10 and 15.4.
#[tactic(auto, unfolding(crate::specs::StatementSteps::assign_by))]
fn assignment(site: &Site, target: &Expr, e: &Expr) -> Broken
    ensures { result ≡ spec.assign_by site.now target.now e.now }
{
    if defines(site, target) {
        Broken {
            rows: None,
            guarded: Some(Kind::BadStatementFunction),
        }
    } else {
        breaks(assigned(judge(site.names, target), judge(site.names, e)))
    }
}

/// ASSIGN. Section 10.3.
#[tactic(auto, unfolding(crate::specs::StatementSteps::assign_label_by))]
fn assign_label(site: &Site, label: u32, name: &[u8]) -> Option<Kind>
    ensures { result ≡ spec.assign_label_by site.now label name.now }
{
    let stands = site.may_branch(label) || site.is_format(label);
    lesser_of(
        variable(site, name),
        unless(stands, Kind::LabelMissingOrTwice),
    )
}

/// The computed GO TO. Section 11.2.
#[tactic(auto, unfolding(crate::specs::StatementSteps::goto_list_by))]
fn goto_list(site: &Site, labels: &[u32], e: &Expr) -> Option<Kind>
    ensures { result ≡ spec.goto_list_by site.now labels.now e.now }
{
    lesser_of(integer(site, e), branches(site, labels))
}

/// The assigned GO TO. Section 11.3.
#[tactic(auto, unfolding(crate::specs::StatementSteps::goto_name_by))]
fn goto_name(site: &Site, name: &[u8], labels: &[u32]) -> Option<Kind>
    ensures { result ≡ spec.goto_name_by site.now name.now labels.now }
{
    lesser_of(variable(site, name), branches(site, labels))
}

/// The arithmetic IF. Section 11.4.
#[tactic(auto, unfolding(crate::specs::StatementSteps::if_sign_by))]
fn if_sign(site: &Site, e: &Expr, below: u32, at: u32, above: u32) -> Option<Kind>
    ensures { result ≡ spec.if_sign_by site.now e.now below at above }
{
    let later = lesser_of(branch(site, at), branch(site, above));
    lesser_of(integer(site, e), lesser_of(branch(site, below), later))
}

/// The logical IF with its statement. Section 11.5.
#[tactic(auto, unfolding(crate::specs::StatementSteps::if_one_by))]
fn if_one(site: &Site, e: &Expr, inner: Broken) -> Option<Kind>
    ensures { result ≡ spec.if_one_by site.now e.now inner }
{
    lesser_of(condition(site, e), lesser_of(inner.rows, inner.guarded))
}

/// The row of a DO whose range does not end. Section 11.10.
#[tactic(auto, unfolding(crate::specs::StatementSteps::ends_by))]
fn ends(site: &Site) -> Option<Kind>
    ensures { result ≡ spec.ends_by site.now }
{
    unless(site.ends_loop, Kind::BadDoNest)
}

/// Whether a CALL may call a name of a class.
#[tactic(auto, unfolding(f_tree::specs::WellTyped::is_callee))]
fn is_callee(class: Class) -> bool
    ensures { result ≡ callees.is_callee class }
{
    match class {
        Class::Procedure | Class::DummyProcedure | Class::Result | Class::Unit => true,
        Class::Constant | Class::Stored | Class::Dummy => false,
        Class::StatementFunction | Class::Intrinsic => false,
    }
}

/// The row that an operand breaks as an argument of CALL. Section 15.9.
#[tactic(auto, unfolding(crate::specs::StatementSteps::call_passed_found))]
fn call_passed(site: &Site, what: Operand) -> Option<Kind>
    ensures { result ≡ spec.call_passed_found site.now what }
{
    match what {
        Operand::FunctionName => Some(Kind::OperandTypes),
        Operand::Exit(label) => branch(site, label),
        Operand::Value | Operand::Place | Operand::Array(_) => None,
        Operand::ProcedureName | Operand::Nothing => None,
    }
}

/// The least row of an argument of CALL.
#[tactic(auto, unfolding(crate::specs::StatementSteps::argument_found))]
fn argument(site: &Site, e: &Expr) -> Option<Kind>
    ensures { result ≡ spec.argument_found site.now (judged_by site.now.names.now e.now) }
{
    let found = judge(site.names, e);
    lesser_of(found.fault, call_passed(site, found.what))
}

/// The least row of the arguments of CALL.
#[tactic(auto, unfolding(crate::specs::StatementSteps::arguments_onward))]
fn arguments(site: &Site, es: &[Expr]) -> Option<Kind>
    ensures { result ≡ spec.arguments_onward site.now None es.now }
{
    let mut fault = None;
    for e in es {
        fault = lesser_of(fault, argument(site, e));
    }
    fault
}

/// CALL. Section 15.6.
#[tactic(auto, unfolding(crate::specs::StatementSteps::call_by))]
fn call(site: &Site, name: &[u8], es: &[Expr]) -> Option<Kind>
    ensures { result ≡ spec.call_by site.now name.now es.now }
{
    let callee = unless(
        is_callee(site.names.fact(name).class),
        Kind::ConflictingAttributes,
    );
    lesser_of(callee, arguments(site, es))
}

/// INTRINSIC of names that may be those of no intrinsic function. Section 8.8.
#[tactic(auto, unfolding(crate::specs::StatementSteps::intrinsics_onward))]
fn intrinsics(names: &[Text]) -> Option<Kind>
    ensures { result ≡ spec.intrinsics_onward None names.now }
{
    let mut fault = None;
    for name in names {
        let known = intrinsic_named(name.as_slice()).is_some();
        fault = lesser_of(fault, unless(known, Kind::ConflictingAttributes));
    }
    fault
}

/// READ, WRITE or PRINT. Section 12.8.
#[tactic(auto, unfolding(crate::specs::StatementSteps::transfer_by))]
fn transfer(site: &Site, way: Direction, words: &[Control], items: &[ListItem]) -> Option<Kind>
    ensures { result ≡ spec.transfer_by site.now way words.now items.now }
{
    let unit = unless(has_unit(words), Kind::SyntaxError);
    let format = unless(has_format(words), Kind::SyntaxError);
    let behind = lesser_of(unit, lesser_of(format, listed(site, way, items)));
    lesser_of(controls(site, true, words), behind)
}

/// OPEN, CLOSE, BACKSPACE, ENDFILE or REWIND. Section 12.10.
#[tactic(auto, unfolding(crate::specs::StatementSteps::auxiliary_by))]
fn auxiliary(site: &Site, words: &[Control]) -> Option<Kind>
    ensures { result ≡ spec.auxiliary_by site.now words.now }
{
    let unit = unless(has_unit(words), Kind::SyntaxError);
    lesser_of(controls(site, false, words), unit)
}

/// The least of the rows that a statement breaks, and of those that it breaks besides as the statement of a logical IF.
#[tactic(auto, using(crate::proofs::StatementForms::statement_forms))]
pub fn judge_statement(site: &Site, body: &Body) -> Broken
    ensures { result ≡ spec.broken_by site.now body.now }
{
    match body {
        Body::Assign(target, e) => assignment(site, target, e),
        Body::AssignLabel(label, name) => breaks(assign_label(site, *label, name.as_slice())),
        Body::Intrinsic(names) => breaks_alone(intrinsics(names.as_slice())),
        Body::IfOne(e, inner) => {
            breaks_alone(if_one(site, e, judge_statement(site, inner.get())))
        }
        Body::IfThen(e) | Body::ElseIf(e) => breaks_alone(condition(site, e)),
        Body::Do(_, control) => { breaks_alone(lesser_of(loop_control(site, control), ends(site))) }
        Body::DoWhile(_, e) => breaks_alone(lesser_of(condition(site, e), ends(site))),
        Body::Goto(label) => breaks(branch(site, *label)),
        Body::GotoList(labels, e) => breaks(goto_list(site, labels.as_slice(), e)),
        Body::GotoName(name, labels) => {
            breaks(goto_name(site, name.as_slice(), labels.as_slice()))
        }
        Body::IfSign(e, below, at, above) => breaks(if_sign(site, e, *below, *at, *above)),
        Body::Call(name, es) => breaks(call(site, name.as_slice(), es.as_slice())),
        Body::Return(e) => breaks(optional(site, e)),
        Body::Continue | Body::Stop(_) => breaks(None),
        Body::Transfer(way, words, items) => {
            breaks(transfer(site, *way, words.as_slice(), items.as_slice()))
        }
        Body::Auxiliary(_, words) => breaks(auxiliary(site, words.as_slice())),
        Body::Header(_, _, _) | Body::Declare(_, _) | Body::Dimension(_) => breaks_alone(None),
        Body::Common(_) | Body::Equivalence(_) | Body::Implicit(_) => breaks_alone(None),
        Body::ImplicitNone | Body::Parameter(_) | Body::External(_) => breaks_alone(None),
        Body::Save(_) | Body::Init(_) | Body::Format(_) => breaks_alone(None),
        Body::Entry(_, _) | Body::Else | Body::EndIf | Body::EndDo => breaks_alone(None),
        Body::Include(_) | Body::End => breaks_alone(None),
    }
}
