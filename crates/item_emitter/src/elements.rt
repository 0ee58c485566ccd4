//! Elements of arrays. ANSI X3.9-1978, section 5.4.

ghost use Rattle.std.specs.Prelude.{◌≡◌, ◌+◌, ◌^◌, ◌<◌, ◌++◌, ◌∷◌, [], length, Some, option_map, IfOk};
ghost use Rattle.c_tree.specs.declared.expression.CExpr.TheVariants as expr;
ghost use Rattle.c_tree.specs.declared.expression.UnaryOp.TheVariants as prefix;
ghost use Rattle.c_structure.specs.Expressions.{with_two};
ghost use Rattle.item_emission.specs.NamedEmission as spec;

use crate::arithmetic::{constant, count, difference, prefixed, product, sum};
use c_names::{lower_bound_name, size_name, variable_name};
use c_tree::expression::{CExpr, UnaryOp};
use item_emission::{Dimension, LowerBound, Size, Standing};
use plain_data::{Boxed, Items};
use std::alloc::{AllocError, Global};

/// A dimension; what is not there counts as 0.
#[tactic(auto, unfolding(item_emission::specs::NamedEmission::dimension_at))]
fn dimension_at(dimensions: &[Dimension], place: usize) -> Dimension
    ensures { result ≡ spec.dimension_at dimensions.now place }
{
    match dimensions.get(place) {
        Some(dimension) => *dimension,
        None => Dimension {
            lower: LowerBound::Written(0),
            size: Size::Written(0),
        },
    }
}

/// The lower bound of a dimension of an array.
#[tactic(auto, unfolding(item_emission::specs::NamedEmission::lower_expr))]
fn lower_bound(
    alloc: Global,
    name: &[u8],
    place: usize,
    lower: LowerBound,
) -> Result<CExpr, AllocError>
    requires { place + 1 < 2 ^ 64 }
    ensures { IfOk result (λ e. spec.lower_expr name.now place lower ≡ Some e) }
{
    match lower {
        LowerBound::Written(lower) => constant(alloc, lower),
        LowerBound::Kept => Ok(CExpr::Name(lower_bound_name(alloc, name, place + 1)?)),
    }
}

/// How many elements a dimension of an array has.
#[tactic(auto, unfolding(item_emission::specs::NamedEmission::size_expr))]
fn size_of(
    alloc: Global,
    name: &[u8],
    place: usize,
    size: Size,
) -> Result<Option<CExpr>, AllocError>
    requires { place + 1 < 2 ^ 64 }
    ensures { IfOk result (λ e. e ≡ spec.size_expr name.now place size) }
{
    match size {
        Size::Written(size) => Ok(count(size)),
        Size::Kept => Ok(Some(CExpr::Name(size_name(alloc, name, place + 1)?))),
    }
}

/// How far a subscript is from the lower bound of its dimension.
#[tactic(auto, unfolding(item_emission::specs::NamedEmission::distance_expr))]
fn distance(
    alloc: Global,
    name: &[u8],
    place: usize,
    dimension: Dimension,
    subscript: CExpr,
) -> Result<CExpr, AllocError>
    requires { place + 1 < 2 ^ 64 }
    ensures { IfOk result (λ e. spec.distance_expr name.now place dimension subscript ≡ Some e) }
{
    let lower = lower_bound(alloc, name, place, dimension.lower)?;
    difference(alloc, subscript, lower)
}

/// A product, where there are factors.
#[tactic(auto, unfolding(c_structure::specs::Expressions::with_two))]
fn product_of(
    alloc: Global,
    left: Option<CExpr>,
    right: Option<CExpr>,
) -> Result<Option<CExpr>, AllocError>
    ensures { IfOk result (λ e. e ≡ with_two spec.product_expr left right) }
{
    match (left, right) {
        (Some(left), Some(right)) => Ok(Some(product(alloc, left, right)?)),
        (Some(_), None) => Ok(None),
        (None, _) => Ok(None),
    }
}

/// A sum, where there is what is added to.
#[tactic(auto, unfolding(item_emission::specs::NamedEmission::sum_of))]
fn sum_of(alloc: Global, left: Option<CExpr>, right: CExpr) -> Result<Option<CExpr>, AllocError>
    ensures { IfOk result (λ e. e ≡ spec.sum_of left (Some right)) }
{
    match left {
        Some(left) => sum(alloc, left, right),
        None => Ok(None),
    }
}

/// One dimension more, before those by which an element has an index.
#[tactic(auto, unfolding(item_emission::specs::NamedEmission::stepped_expr))]
fn stepped(
    alloc: Global,
    name: &[u8],
    place: usize,
    dimension: Dimension,
    subscript: CExpr,
    index: Option<CExpr>,
) -> Result<Option<CExpr>, AllocError>
    requires { place + 1 < 2 ^ 64 }
    ensures { IfOk result (λ e. e ≡ spec.stepped_expr name.now place dimension subscript index) }
{
    let size = size_of(alloc, name, place, dimension.size)?;
    let before = product_of(alloc, index, size)?;
    let distance = distance(alloc, name, place, dimension, subscript)?;
    sum_of(alloc, before, distance)
}

/// The place of the dimension behind those of some subscripts.
fn place_behind(before: &[CExpr]) -> usize
    ensures is { result ≡ length before.now }
    ensures few { result + 1 < 2 ^ 64 }
{
    before.len()
}

/// The index of an element whose last subscript is given apart, the first subscript going fastest.
fn index_by(
    alloc: Global,
    name: &[u8],
    dimensions: &[Dimension],
    mut before: Items<CExpr>,
    last: CExpr,
) -> Result<Option<CExpr>, AllocError>
    ensures { IfOk result (λ e. e ≡ spec.index_expr name.now (spec.dimension_at dimensions.now) 0 (before ++ last ∷ [])) }
{
    let place = place_behind(before.as_slice());
    let dimension = dimension_at(dimensions, place);
    let mut index = Some(distance(alloc, name, place, dimension, last)?);
    while let Some(subscript) = before.pop() {
        let place = place_behind(before.as_slice());
        let dimension = dimension_at(dimensions, place);
        index = stepped(alloc, name, place, dimension, subscript, index)?;
    }
    Ok(index)
}

/// The index of an element, by its subscripts.
fn index(
    alloc: Global,
    name: &[u8],
    dimensions: &[Dimension],
    mut subscripts: Items<CExpr>,
) -> Result<Option<CExpr>, AllocError>
    ensures { IfOk result (λ e. e ≡ spec.index_expr name.now (spec.dimension_at dimensions.now) 0 subscripts) }
{
    match subscripts.pop() {
        Some(last) => index_by(alloc, name, dimensions, subscripts, last),
        None => Ok(count(0)),
    }
}

/// A variable by its name.
#[tactic(auto, unfolding(item_emission::specs::NamedEmission::variable_expr))]
pub(crate) fn variable(alloc: Global, name: &[u8]) -> Result<CExpr, AllocError>
    ensures { IfOk result (λ e. e ≡ spec.variable_expr name.now) }
{
    Ok(CExpr::Name(variable_name(alloc, name)?))
}

/// What a parameter points to.
fn pointed(alloc: Global, name: &[u8]) -> Result<CExpr, AllocError>
    ensures { IfOk result (λ e. e ≡ expr.Unary prefix.Deref (spec.variable_expr name.now)) }
{
    let parameter = variable(alloc, name)?;
    prefixed(alloc, UnaryOp::Deref, parameter)
}

/// The variable for the result of a function.
#[tactic(auto, unfolding(item_emission::specs::NamedEmission::result_object, f_tree::specs::CNames::made_name))]
fn result_object(alloc: Global) -> Result<CExpr, AllocError>
    ensures { IfOk result (λ e. e ≡ spec.result_object) }
{
    Ok(CExpr::Name(Items::from_slice(alloc, b"ret_val")?))
}

/// One number, as it stands.
#[tactic(auto, unfolding(item_emission::specs::NamedEmission::scalar_expr))]
pub(crate) fn number_object(
    alloc: Global,
    standing: Standing,
    name: &[u8],
) -> Result<CExpr, AllocError>
    ensures { IfOk result (λ e. e ≡ spec.scalar_expr standing name.now) }
{
    match standing {
        Standing::Own => variable(alloc, name),
        Standing::Parameter => pointed(alloc, name),
        Standing::Result => result_object(alloc),
    }
}

/// An element of an array, by its index.
#[tactic(auto, unfolding(item_emission::specs::NamedEmission::variable_expr))]
fn indexed(alloc: Global, name: &[u8], index: CExpr) -> Result<CExpr, AllocError>
    ensures { IfOk result (λ e. e ≡ expr.Index (spec.variable_expr name.now) index) }
{
    let array = variable(alloc, name)?;
    Ok(CExpr::Index(Boxed::new(alloc, array)?, Boxed::new(alloc, index)?))
}

/// An element of an array, where it has an index.
fn indexed_if(alloc: Global, name: &[u8], index: Option<CExpr>) -> Result<Option<CExpr>, AllocError>
    ensures { IfOk result (λ e. e ≡ option_map (expr.Index (spec.variable_expr name.now)) index) }
{
    match index {
        Some(index) => Ok(Some(indexed(alloc, name, index)?)),
        None => Ok(None),
    }
}

/// An element of an array, by its subscripts.
#[tactic(auto, unfolding(item_emission::specs::NamedEmission::element_expr))]
pub(crate) fn element(
    alloc: Global,
    name: &[u8],
    dimensions: &[Dimension],
    subscripts: Option<Vec<CExpr>>,
) -> Result<Option<CExpr>, AllocError>
    ensures { IfOk result (λ e. e ≡ spec.element_expr name.now (spec.dimension_at dimensions.now) (option_map (λ es. es.items) subscripts)) }
{
    match subscripts {
        Some(subscripts) => {
            let index = index(alloc, name, dimensions, Items::from_vec(subscripts))?;
            indexed_if(alloc, name, index)
        }
        None => Ok(None),
    }
}
