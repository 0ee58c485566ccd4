//! The bounds of dimensions.

ghost use Rattle.std.specs.Prelude.{◌≡◌, IfOk, option_map, is_some, pos};
ghost use Rattle.std.specs.List.{list_all};
ghost use Rattle.std.specs.Ordering.{int_eq};
ghost use Rattle.f_tree.specs.Attributes.{dimension_read, upper_read};
ghost use Rattle.lowered_tree.specs.l_core.Pures as core;
ghost use Rattle.lowered_tree.specs.Shapes.{datum_of, pure_of};
ghost use Rattle.kept_bounds.specs.KeptBounds as kept;
ghost use Rattle.expression_lowering.specs.TableNames.{attribute_in};
ghost use Rattle.bound_values.specs.BoundValues as spec;

use crate::leaves::{between, integer};
use crate::values::{bound_value, is_pure_bound};
use f_tree::{Dimension, Expr, UpperBound};
use lowered_tree::{Literal, Operator, Pure};
use name_facts::{NameFact, NameFacts};
use std::alloc::{AllocError, Global};

/// Whether a lower bound has a pure value: it is 1 where none is written.
#[tactic(auto, using(crate::proofs::BoundForms::bound_forms))]
fn is_pure_lower(table: &NameFacts, lower: &Option<Expr>) -> bool
    ensures { result ≡ is_some (spec.lower_pure table.now lower.now) }
{
    match lower {
        Some(e) => is_pure_bound(table, e),
        None => true,
    }
}

/// Whether an upper bound has a pure value, where it is no `*`.
#[tactic(auto, using(crate::proofs::BoundForms::bound_forms))]
fn is_pure_upper(table: &NameFacts, upper: &UpperBound) -> bool
    ensures { result ≡ kept.upper_is_pure (upper_read (attribute_in table.now) upper.now) }
{
    match upper {
        UpperBound::Value(e) => is_pure_bound(table, e),
        UpperBound::Star => true,
    }
}

/// Whether both bounds of a dimension have pure values.
#[tactic(auto, unfolding(kept_bounds::specs::KeptBounds::dimension_is_pure, f_tree::specs::Attributes::dimension_read, crate::specs::BoundValues::lower_pure))]
fn is_pure_dimension(table: &NameFacts, dimension: &Dimension) -> bool
    ensures { result ≡ kept.dimension_is_pure (dimension_read (attribute_in table.now) dimension.now) }
{
    is_pure_lower(table, &dimension.lower) && is_pure_upper(table, &dimension.upper)
}

/// Whether all bounds of dimensions have pure values.
fn are_pure(table: &NameFacts, dimensions: &[Dimension]) -> bool
    ensures { result ≡ list_all (λ d. kept.dimension_is_pure (dimension_read (attribute_in table.now) d)) dimensions.now }
{
    dimensions
        .iter()
        .all(|dimension| is_pure_dimension(table, dimension))
}

/// Whether an upper bound is no `*`.
#[tactic(auto, unfolding(crate::specs::BoundValues::is_written))]
fn is_written(upper: &UpperBound) -> bool
    ensures { result ≡ spec.is_written upper.now }
{
    match upper {
        UpperBound::Value(_) => true,
        UpperBound::Star => false,
    }
}

/// Whether no upper bound is `*` but that of the last dimension. Section 5.1.2.
#[tactic(auto, unfolding(crate::specs::BoundValues::only_last_is_star))]
fn only_last_is_star(dimensions: &[Dimension]) -> bool
    ensures { result ≡ spec.only_last_is_star dimensions.now }
{
    match dimensions {
        [first, rest @ ..] => {
            (is_written(&first.upper) || rest.is_empty()) && only_last_is_star(rest)
        }
        [] => true,
    }
}

/// Whether an array has a dimension that is not constant. Section 5.1.2.
#[tactic(auto, unfolding(crate::specs::BoundValues::is_adjustable))]
pub fn is_adjustable(fact: &NameFact) -> bool
    ensures { result ≡ spec.is_adjustable fact.now }
{
    fact.bounds.len() != fact.rank
}

/// Whether the bounds of an array are not all constant, and each has a pure value, which a procedure can keep when it begins. Section 5.5.1. The fact is
/// what the table tells of the array.
#[tactic(auto, unfolding(crate::specs::BoundValues::has_adjustable_bounds))]
pub fn has_adjustable_bounds(table: &NameFacts, fact: &NameFact, dimensions: &[Dimension]) -> bool
    ensures { result ≡ spec.has_adjustable_bounds table.now fact.now dimensions.now }
{
    is_adjustable(fact) && are_pure(table, dimensions) && only_last_is_star(dimensions)
}

/// The pure value of a lower bound, where it has one.
///
/// # Errors
///
/// Where memory has run out.
#[tactic(auto, using(crate::proofs::BoundForms::bound_forms))]
pub fn lower_value(
    alloc: Global,
    table: &NameFacts,
    lower: &Option<Expr>,
) -> Result<Option<Pure>, AllocError>
    ensures { IfOk result (λ value. option_map pure_of value ≡ spec.lower_pure table.now lower.now) }
{
    match lower {
        Some(e) => bound_value(alloc, table, e),
        None => Ok(Some(integer(&1))),
    }
}

/// The pure value of an upper bound, where it has one.
#[tactic(auto, using(crate::proofs::BoundForms::bound_forms))]
fn upper_value(
    alloc: Global,
    table: &NameFacts,
    upper: &UpperBound,
) -> Result<Option<Pure>, AllocError>
    ensures { IfOk result (λ value. option_map pure_of value ≡ spec.upper_pure table.now upper.now) }
{
    match upper {
        UpperBound::Value(e) => bound_value(alloc, table, e),
        UpperBound::Star => Ok(None),
    }
}

/// Whether a number is 1.
fn is_one(number: &i32) -> bool
    ensures { result ≡ int_eq number.now (pos 1) }
{
    *number == 1
}

/// Whether a constant is the integer 1.
#[tactic(auto, unfolding(kept_bounds::specs::KeptBounds::is_written))]
fn is_literal_one(literal: &Literal) -> bool
    ensures { result ≡ kept.is_written (pos 1) (core.Constant (datum_of literal.now)) }
{
    match literal {
        Literal::Integer(number) => is_one(number),
        Literal::Logical(_) | Literal::Text(_) | Literal::Label(_) | Literal::Nothing => false,
    }
}

/// Whether a value is written as 1.
#[tactic(auto, using(crate::proofs::BoundForms::written_forms))]
fn is_written_one(value: &Pure) -> bool
    ensures { result ≡ kept.is_written (pos 1) (pure_of value.now) }
{
    match value {
        Pure::Constant(literal) => is_literal_one(literal),
        Pure::Temporary(_) | Pure::Load(_) | Pure::Name(_) | Pure::AllOf(_) => false,
        Pure::ElementOf(_, _) | Pure::FirstOf(_) | Pure::Substring(_, _, _, _) => false,
        Pure::Concatenated(_) | Pure::Prefixed(_, _) | Pure::Operated(_, _, _) => false,
        Pure::Applied(_, _) | Pure::Chosen(_, _, _) => false,
    }
}

/// The size of a dimension by its bounds. Section 5.1.1.2.
#[tactic(auto, unfolding(kept_bounds::specs::KeptBounds::size_pure))]
fn size_between(alloc: Global, lower: Pure, upper: Pure) -> Result<Pure, AllocError>
    ensures { IfOk result (λ size. pure_of size ≡ kept.size_pure (pure_of lower) (pure_of upper)) }
{
    if is_written_one(&lower) {
        return Ok(upper);
    }
    let difference = between(alloc, Operator::Subtract, upper, lower)?;
    between(alloc, Operator::Add, difference, integer(&1))
}

/// The size of a dimension by the values of its bounds, where both have values.
#[tactic(auto, unfolding(crate::specs::BoundValues::size_by))]
fn size_by(
    alloc: Global,
    lower: Option<Pure>,
    upper: Option<Pure>,
) -> Result<Option<Pure>, AllocError>
    ensures { IfOk result (λ size. option_map pure_of size ≡ spec.size_by (option_map pure_of lower) (option_map pure_of upper)) }
{
    match (lower, upper) {
        (Some(lower), Some(upper)) => Ok(Some(size_between(alloc, lower, upper)?)),
        _ => Ok(None),
    }
}

/// The size of a dimension as a pure value, where both bounds have values.
///
/// # Errors
///
/// Where memory has run out.
pub fn size_value(
    alloc: Global,
    table: &NameFacts,
    dimension: &Dimension,
) -> Result<Option<Pure>, AllocError>
    ensures { IfOk result (λ size. option_map pure_of size ≡ spec.size_by (spec.lower_pure table.now dimension.now.lower) (spec.upper_pure table.now dimension.now.upper)) }
{
    let lower = lower_value(alloc, table, &dimension.lower)?;
    let upper = upper_value(alloc, table, &dimension.upper)?;
    size_by(alloc, lower, upper)
}
