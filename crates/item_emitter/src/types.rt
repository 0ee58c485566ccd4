//! Types of values. ANSI X3.9-1978, sections 4, 6 and 15.10.

ghost use Rattle.std.specs.Prelude.{◌≡◌};
ghost use Rattle.c_emit.specs.Types as types;
ghost use Rattle.lowered_tree.specs.Shapes.{datum_of, prefix_of, operator_of, function_of, pure_of};
ghost use Rattle.lowered_text.specs.Texts.{kinds_of};
ghost use Rattle.item_emitter.specs.Knowing.{known_of};
ghost use Rattle.item_emission.specs.NamedEmission as spec;

use crate::known::{Known, kind};
use f_tree::Basic;
use lowered_text::Kept;
use lowered_tree::{Function, Literal, Operator, Prefix, Pure};

/// The type of a value that is written.
#[tactic(auto, unfolding(c_emit::specs::Types::type_of_datum))]
fn type_of_literal(value: &Literal) -> Option<Basic>
    ensures { result ≡ types.type_of_datum (datum_of value.now) }
{
    match value {
        Literal::Integer(_) => Some(Basic::Integer),
        Literal::Logical(_) => Some(Basic::Logical),
        Literal::Text(_) | Literal::Label(_) | Literal::Nothing => None,
    }
}

/// The type behind an operator.
#[tactic(auto, unfolding(c_emit::specs::Types::type_behind))]
fn type_behind(operator: Prefix) -> Basic
    ensures { result ≡ types.type_behind (prefix_of operator) }
{
    match operator {
        Prefix::Negate => Basic::Integer,
        Prefix::Complement => Basic::Logical,
    }
}

/// The type of an operator between two operands.
#[tactic(auto, unfolding(c_emit::specs::Types::type_between))]
fn type_between(operator: Operator) -> Basic
    ensures { result ≡ types.type_between (operator_of operator) }
{
    match operator {
        Operator::Add | Operator::Subtract | Operator::Multiply | Operator::Divide => {
            Basic::Integer
        }
        Operator::IsLess | Operator::IsLessOrEqual | Operator::IsEqual => Basic::Logical,
        Operator::IsNotEqual | Operator::IsGreater => Basic::Logical,
        Operator::IsGreaterOrEqual | Operator::Both | Operator::Either => Basic::Logical,
        Operator::Same | Operator::Different => Basic::Logical,
    }
}

/// The type of a function that is no call of the library.
#[tactic(auto, unfolding(c_emit::specs::Types::type_by))]
fn type_by(function: Function) -> Option<Basic>
    ensures { result ≡ types.type_by (function_of function) }
{
    match function {
        Function::Truncation | Function::Magnitude | Function::Remainder => Some(Basic::Integer),
        Function::Largest | Function::Smallest => Some(Basic::Integer),
        Function::Power
        | Function::SignTransfer
        | Function::PositiveDifference
        | Function::CharacterCode
        | Function::CharacterOfCode
        | Function::TextLength
        | Function::IndexOf
        | Function::LexicallyGreaterOrEqual
        | Function::LexicallyGreater
        | Function::LexicallyLessOrEqual
        | Function::LexicallyLess
        | Function::Front(_)
        | Function::Fitted(_)
        | Function::InclusiveOr
        | Function::LogicalProduct
        | Function::ExclusiveOr
        | Function::BitComplement
        | Function::BitShift
        | Function::BitTest
        | Function::BitSet
        | Function::BitClear => None,
    }
}

/// A type of numbers or truth values.
#[tactic(auto, unfolding(c_emit::specs::Types::if_numeric))]
fn if_numeric(basic: Basic) -> Option<Basic>
    ensures { result ≡ types.if_numeric basic }
{
    match basic {
        Basic::Integer => Some(Basic::Integer),
        Basic::Logical => Some(Basic::Logical),
        Basic::Character | Basic::Untyped => None,
    }
}

/// The type of what stands at a place.
#[tactic(auto, using(crate::proofs::StepForms::at_forms))]
fn type_at(known: &Known, source: &Pure) -> Option<Basic>
    ensures { result ≡ spec.type_at (known_of known.now) (pure_of source.now) }
{
    match source {
        Pure::Name(name) => if_numeric(known.basic(name.as_slice())),
        Pure::ElementOf(name, _) => if_numeric(known.basic(name.as_slice())),
        Pure::Constant(_) => None,
        Pure::Temporary(_) => None,
        Pure::Load(_) => None,
        Pure::AllOf(_) => None,
        Pure::FirstOf(_) => None,
        Pure::Substring(_, _, _, _) => None,
        Pure::Concatenated(_) => None,
        Pure::Prefixed(_, _) => None,
        Pure::Operated(_, _, _) => None,
        Pure::Applied(_, _) => None,
        Pure::Chosen(_, _, _) => None,
    }
}

/// The type of a value before a step.
#[tactic(auto, using(crate::proofs::StepForms::type_forms))]
pub(crate) fn type_in(known: &Known, kept: Option<Kept>, source: &Pure) -> Option<Basic>
    ensures { result ≡ spec.type_in (known_of known.now) (kinds_of kept) (pure_of source.now) }
{
    match source {
        Pure::Constant(value) => type_of_literal(value),
        Pure::Temporary(number) => kind(kept, *number),
        Pure::Load(source) => type_at(known, source.get()),
        Pure::Prefixed(operator, _) => Some(type_behind(*operator)),
        Pure::Operated(operator, _, _) => Some(type_between(*operator)),
        Pure::Applied(function, _) => type_by(*function),
        Pure::Name(_) => None,
        Pure::AllOf(_) => None,
        Pure::ElementOf(_, _) => None,
        Pure::FirstOf(_) => None,
        Pure::Substring(_, _, _, _) => None,
        Pure::Concatenated(_) => None,
        Pure::Chosen(_, _, _) => None,
    }
}
