//! What an expression is as an actual argument. Section 15.9.3.
#![tactic(auto)]

ghost use Rattle.std.specs.Prelude.{◌≡◌, is_some, map, IfOk};
ghost use Rattle.f_tree.specs.Lines.{is_character};
ghost use Rattle.expression_judge.specs.FoundSteps.{name_judged_by};
ghost use Rattle.expression_judge.specs.Intrinsics.{intrinsic_named};
ghost use Rattle.expression_judge.specs.SeenNames.{function_in};
ghost use Rattle.reference_judge.specs.ArgumentsSeen as spec;

use expression_judge::{Names, Operand, intrinsic_named, judge_name};
use f_tree::{Basic, BinaryOp, Class, Expr};
use std::alloc::{AllocError, Global};

/// What an actual argument is.
#[derive(Clone, Copy, Debug, PartialEq, Eq)]
pub(crate) enum ArgumentKind {
    /// An INTEGER or a LOGICAL.
    Number,
    Text,
    Procedure,
    /// Where an alternate return goes. Section 15.9.3.5.
    Exit,
}

/// An expression as an actual argument.
#[derive(Clone, Copy, Debug, PartialEq, Eq)]
pub(crate) struct Argument {
    pub kind: ArgumentKind,
    /// Whether its type is CHARACTER, also where it is a procedure.
    pub is_text: bool,
}

/// A value, a variable or an array.
#[tactic(auto, unfolding(crate::specs::ArgumentsSeen::value_argument))]
fn value(is_text: bool) -> Argument
    ensures { result ≡ spec.value_argument is_text }
{
    if is_text {
        Argument {
            kind: ArgumentKind::Text,
            is_text: true,
        }
    } else {
        Argument {
            kind: ArgumentKind::Number,
            is_text: false,
        }
    }
}

/// Where an alternate return goes.
#[tactic(auto, unfolding(crate::specs::ArgumentsSeen::exit_argument))]
fn exit() -> Argument
    ensures { result ≡ spec.exit_argument }
{
    Argument {
        kind: ArgumentKind::Exit,
        is_text: false,
    }
}

/// What is judged of an operand, as an actual argument.
#[tactic(auto, unfolding(crate::specs::ArgumentsSeen::operand_argument))]
fn operand(what: Operand, is_text: bool) -> Argument
    ensures { result ≡ spec.operand_argument what is_text }
{
    match what {
        Operand::ProcedureName | Operand::FunctionName => Argument {
            kind: ArgumentKind::Procedure,
            is_text,
        },
        Operand::Exit(_) => Argument {
            kind: ArgumentKind::Exit,
            is_text,
        },
        Operand::Value | Operand::Place | Operand::Array(_) | Operand::Nothing => value(is_text),
    }
}

/// Whether a type is CHARACTER.
#[tactic(auto, unfolding(f_tree::specs::Lines::is_character))]
pub(crate) fn is_character(basic: Basic) -> bool
    ensures { result ≡ is_character basic }
{
    match basic {
        Basic::Character => true,
        Basic::Integer | Basic::Logical | Basic::Untyped => false,
    }
}

/// A name alone.
#[tactic(auto, unfolding(crate::specs::ArgumentsSeen::found_argument))]
fn name_argument(names: &Names, name: &[u8]) -> Argument
    ensures { result ≡ spec.found_argument (name_judged_by names.now name.now) }
{
    let found = judge_name(names, name);
    operand(found.what, is_character(found.basic))
}

/// Whether an intrinsic function gives a text.
#[tactic(auto, unfolding(crate::specs::ArgumentsSeen::intrinsic_text))]
fn intrinsic_gives_text(name: &[u8]) -> bool
    ensures { result ≡ spec.intrinsic_text (intrinsic_named name.now) }
{
    match intrinsic_named(name) {
        Some(intrinsic) => is_character(intrinsic.gives),
        None => false,
    }
}

/// Whether a statement function is known.
fn is_defined(names: &Names, name: &[u8]) -> bool
    ensures { result ≡ is_some (function_in names.now name.now) }
{
    match names.function(name) {
        Some(_) => true,
        None => false,
    }
}

/// Whether a statement function gives a text.
#[tactic(auto, unfolding(crate::specs::ArgumentsSeen::defined_text))]
fn defined_gives_text(names: &Names, name: &[u8], basic: Basic) -> bool
    ensures { result ≡ spec.defined_text names.now name.now basic }
{
    !names.is_bound(name) && (is_defined(names, name) && is_character(basic))
}

/// Whether a name of a class and a type gives a text with a list.
#[tactic(auto, unfolding(crate::specs::ArgumentsSeen::applied_text))]
fn gives_text_by(names: &Names, name: &[u8], class: Class, basic: Basic) -> bool
    ensures { result ≡ spec.applied_text names.now name.now class basic }
{
    match class {
        Class::Constant | Class::Unit => false,
        Class::Intrinsic => intrinsic_gives_text(name),
        Class::StatementFunction => defined_gives_text(names, name, basic),
        Class::Procedure | Class::DummyProcedure | Class::Result => is_character(basic),
        Class::Stored | Class::Dummy => is_character(basic),
    }
}

/// Whether a name with a list is a text.
#[tactic(auto, unfolding(crate::specs::ArgumentsSeen::list_gives_text))]
fn gives_text(names: &Names, name: &[u8]) -> bool
    ensures { result ≡ spec.list_gives_text names.now name.now }
{
    let fact = names.fact(name);
    gives_text_by(names, name, fact.class, fact.basic)
}

/// Whether an operator gives a text.
#[tactic(auto, unfolding(crate::specs::ArgumentsSeen::joins_texts))]
fn joins_texts(op: BinaryOp) -> bool
    ensures { result ≡ spec.joins_texts op }
{
    match op {
        BinaryOp::Concatenate => true,
        _ => false,
    }
}

/// An expression as an actual argument.
#[tactic(auto, using(crate::proofs::SightForms::argument_forms))]
pub(crate) fn argument_of(names: &Names, e: &Expr) -> Argument
    ensures { result ≡ (spec.sight_by names.now e.now).argument }
{
    match e {
        Expr::Int(_) | Expr::Logical(_) | Expr::Minus(_) | Expr::Plus(_) => value(false),
        Expr::Not(_) | Expr::Bind(..) | Expr::Bound(_) => value(false),
        Expr::Text(_) | Expr::Part(..) => value(true),
        Expr::Name(name) => name_argument(names, name.as_slice()),
        Expr::Apply(name, _) => value(gives_text(names, name.as_slice())),
        Expr::Paren(operand) => value(argument_of(names, operand.get()).is_text),
        Expr::Binary(op, ..) => value(joins_texts(*op)),
        Expr::AltReturn(_) => exit(),
    }
}

/// What actual arguments are, in their order.
pub(crate) fn argument_kinds(
    alloc: Global,
    names: &Names,
    es: &[Expr],
) -> Result<Vec<ArgumentKind>, AllocError>
    ensures { IfOk result (λ kinds. map spec.kind_in kinds.items ≡ spec.kinds_of (map (spec.sight_by names.now) es.now)) }
{
    let mut kinds = Vec::new(alloc);
    for e in es {
        kinds.push(argument_of(names, e).kind)?;
    }
    Ok(kinds)
}
