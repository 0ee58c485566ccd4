//! What is known before each step of the temporaries: the type of the value that the step before keeps, computes or gets of a function. Sections 4.1, 6.1,
//! 6.3, 6.4, 15.5 and 15.10.

ghost use Rattle.std.specs.Prelude.{◌≡◌, ℕ, false, Some, None, nat_eq, IfOk, slice_get, if◌then◌else◌};
ghost use Rattle.std.specs.Option.{option_flatten};
ghost use Rattle.f_tree.specs.Facts.{Facts};
ghost use Rattle.lowered_tree.specs.l_core.Pures as core;
ghost use Rattle.lowered_tree.specs.Shapes.{datum_of, prefix_of, operator_of, function_of, wanted_of, pure_of, step_of};
ghost use Rattle.lowered_text.specs.Texts.{kinds_of};
ghost use Rattle.c_emit.specs.Types as types;
ghost use Rattle.main_translation.specs.Flow.{kept_type, kept_at};
ghost use Rattle.procedure_emission.specs.ProcedureItems as items;
ghost use Rattle.unit_translation.specs.UnitFlow.{kept_behind};
ghost use Rattle.unit_contents.specs.ContentsOf.{TellsNames};
ghost use Rattle.unit_contents.specs.Tables.{AreTargets, AreKinds};
ghost use Rattle.unit_contents.specs.Parts as spec;

use f_tree::Basic;
use library_functions::library_type;
use lowered_text::{Kept, LoweredText};
use lowered_tree::{Function, Literal, Operator, Prefix, Pure, Step, Wanted};
use name_facts::NameFacts;
use std::alloc::{AllocError, Global};

/// The type of a literal that is an integer or a logical.
#[tactic(auto, unfolding(c_emit::specs::Types::type_of_datum))]
fn type_of_literal(literal: &Literal) -> Option<Basic>
    ensures { result ≡ types.type_of_datum (datum_of literal.now) }
{
    match literal {
        Literal::Integer(_) => Some(Basic::Integer),
        Literal::Logical(_) => Some(Basic::Logical),
        Literal::Text(_) | Literal::Label(_) | Literal::Nothing => None,
    }
}

/// The type of what an operator before its operand gives.
#[tactic(auto, unfolding(c_emit::specs::Types::type_behind))]
fn type_behind(prefix: Prefix) -> Basic
    ensures { result ≡ types.type_behind (prefix_of prefix) }
{
    match prefix {
        Prefix::Negate => Basic::Integer,
        Prefix::Complement => Basic::Logical,
    }
}

/// The type of what an operator between two operands gives.
#[tactic(auto, unfolding(c_emit::specs::Types::type_between))]
fn type_between(operator: Operator) -> Basic
    ensures { result ≡ types.type_between (operator_of operator) }
{
    match operator {
        Operator::Add | Operator::Subtract => Basic::Integer,
        Operator::Multiply | Operator::Divide => Basic::Integer,
        _ => Basic::Logical,
    }
}

/// The type of what a function gives that no function of the library computes.
#[tactic(auto, unfolding(c_emit::specs::Types::type_by))]
fn type_by(function: Function) -> Option<Basic>
    ensures { result ≡ types.type_by (function_of function) }
{
    match function {
        Function::Truncation | Function::Magnitude | Function::Remainder => Some(Basic::Integer),
        Function::Largest | Function::Smallest => Some(Basic::Integer),
        _ => None,
    }
}

/// A type, if its values are numbers in C.
#[tactic(auto, unfolding(c_emit::specs::Types::if_numeric))]
fn if_numeric(basic: Basic) -> Option<Basic>
    ensures { result ≡ types.if_numeric basic }
{
    match basic {
        Basic::Integer | Basic::Logical => Some(basic),
        Basic::Character | Basic::Untyped => None,
    }
}

/// The type of the values that a name has, if they are numbers in C.
fn type_named(table: &NameFacts, name: &[u8]) -> Option<Basic>
    ensures { (c : Facts) → TellsNames table.now c → result ≡ types.if_numeric (c.program.attribute name.now).basic }
{
    if_numeric(table.basic(name))
}

/// The type of the value at a place, if it is that of a variable or of an element.
#[tactic(auto, unfolding(main_translation::specs::Flow::kept_type), using(lowered_tree::proofs::ShapeForms::pure_forms))]
fn type_at(table: &NameFacts, place: &Pure) -> Option<Basic>
    ensures { (c : Facts) → TellsNames table.now c → result ≡ kept_type c (core.Load (pure_of place.now)) }
{
    match place {
        Pure::Name(name) | Pure::ElementOf(name, _) => type_named(table, name.as_slice()),
        Pure::Constant(_) | Pure::Temporary(_) | Pure::Load(_) | Pure::AllOf(_) => None,
        Pure::FirstOf(_) | Pure::Substring(_, _, _, _) | Pure::Concatenated(_) => None,
        Pure::Prefixed(_, _) | Pure::Operated(_, _, _) | Pure::Applied(_, _) => None,
        Pure::Chosen(_, _, _) => None,
    }
}

/// The type of a value that is kept, if it is a number in C and no temporary.
#[tactic(auto, unfolding(main_translation::specs::Flow::kept_type), using(lowered_tree::proofs::ShapeForms::pure_forms))]
pub(crate) fn kept_type(table: &NameFacts, value: &Pure) -> Option<Basic>
    ensures { (c : Facts) → TellsNames table.now c → result ≡ kept_type c (pure_of value.now) }
{
    match value {
        Pure::Constant(literal) => type_of_literal(literal),
        Pure::Load(place) => type_at(table, place.get()),
        Pure::Prefixed(prefix, _) => Some(type_behind(*prefix)),
        Pure::Operated(operator, _, _) => Some(type_between(*operator)),
        Pure::Applied(function, _) => type_by(*function),
        Pure::Temporary(_) | Pure::Name(_) | Pure::AllOf(_) | Pure::ElementOf(_, _) => None,
        Pure::FirstOf(_) | Pure::Substring(_, _, _, _) | Pure::Concatenated(_) => None,
        Pure::Chosen(_, _, _) => None,
    }
}

/// The type of what a temporary holds, given what is known of the temporaries.
#[tactic(auto, unfolding(lowered_text::specs::Texts::kinds_of))]
fn type_kept(kept: Option<Kept>, temporary: usize) -> Option<Basic>
    ensures { result ≡ kinds_of kept temporary }
{
    let kept = kept?;
    if temporary == kept.temporary {
        Some(kept.basic)
    } else {
        None
    }
}

/// The type of an item, given what is known of the temporaries.
#[tactic(auto, using(crate::proofs::ItemLaws::item_forms))]
pub(crate) fn item_type(table: &NameFacts, kept: Option<Kept>, item: &Pure) -> Option<Basic>
    ensures { (c : Facts) → TellsNames table.now c → result ≡ spec.item_type_by c kept (pure_of item.now) }
{
    match item {
        Pure::Temporary(temporary) => type_kept(kept, *temporary),
        _ => kept_type(table, item),
    }
}

/// What a temporary keeps, if its value has a type.
#[tactic(auto, unfolding(lowered_text::specs::Texts::kinds_of))]
fn kept(temporary: usize, basic: Option<Basic>) -> Option<Kept>
    ensures { (k : ℕ) → kinds_of result k ≡ (if nat_eq k temporary then basic else None) }
{
    let basic = basic?;
    Some(Kept { temporary, basic })
}

/// The type of what is given where this is wanted, if it is a number in C: that of a function, or the number of the alternate return of a subroutine.
#[tactic(auto, unfolding(procedure_emission::specs::ProcedureItems::basic_wanted))]
fn basic_wanted(want: Wanted) -> Option<Basic>
    ensures { result ≡ items.basic_wanted (wanted_of want) }
{
    match want {
        Wanted::Subroutine => Some(Basic::Integer),
        Wanted::Function(Basic::Integer, _) => Some(Basic::Integer),
        Wanted::Function(Basic::Logical, _) => Some(Basic::Logical),
        _ => None,
    }
}

/// What is known of the temporaries behind a step that nothing but the step before leads to.
#[tactic(auto, unfolding(unit_translation::specs::UnitFlow::kept_behind, main_translation::specs::Flow::kept_at, lowered_text::specs::Texts::kinds_of))]
fn kept_by(table: &NameFacts, step: &Step) -> Option<Kept>
    ensures { (c : Facts) → TellsNames table.now c → (k : ℕ) → kinds_of result k ≡ kept_behind c false k (Some (step_of step.now)) }
{
    match step {
        Step::Keep(temporary, value) => kept(*temporary, kept_type(table, value)),
        Step::Compute(temporary, function, _) => kept(*temporary, library_type(*function)),
        Step::CallFor(temporary, callee, _) => kept(*temporary, basic_wanted(callee.want)),
        _ => None,
    }
}

/// What is known of the temporaries behind a step.
#[tactic(auto, unfolding(unit_translation::specs::UnitFlow::kept_behind, main_translation::specs::Flow::kept_at, lowered_text::specs::Texts::kinds_of))]
fn kept_behind(table: &NameFacts, is_target: bool, step: &Step) -> Option<Kept>
    ensures { (c : Facts) → TellsNames table.now c → (k : ℕ) → kinds_of result k ≡ kept_behind c is_target k (Some (step_of step.now)) }
{
    if is_target {
        None
    } else {
        kept_by(table, step)
    }
}

/// What is known of the temporaries before each step, and behind the last.
pub(crate) fn kinds(
    alloc: Global,
    table: &NameFacts,
    text: &LoweredText,
    targets: &[bool],
) -> Result<Vec<Option<Kept>>, AllocError>
    requires { AreTargets text.now targets.now }
    ensures { IfOk result (λ kinds. AreKinds table.now text.now kinds.items) }
{
    let steps = text.steps.as_slice();
    let mut kinds = Vec::new(alloc);
    kinds.push(None)?;
    for (position, step) in steps.iter().enumerate() {
        kinds.push(kept_behind(table, targets[position + 1], step))?;
    }
    Ok(kinds)
}

/// What is known of the temporaries before the step at a position.
pub(crate) fn kept_before(kinds: &[Option<Kept>], position: usize) -> Option<Kept>
    ensures { result ≡ option_flatten (slice_get kinds.now position) }
{
    kinds.get(position).copied().flatten()
}
