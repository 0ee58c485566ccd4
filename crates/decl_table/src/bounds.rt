//! The constant bounds of dimensions. Section 5.1.1.

ghost use Rattle.std.specs.Prelude.{◌≡◌, ◌∷◌, ◌++◌, [], map, OnOk, IfOk, Some, option_map};
ghost use Rattle.f_tree.specs.Attributes.{bounds_between};
ghost use Rattle.name_facts.specs.GivenFacts.{bounds_of};
ghost use Rattle.name_table.specs.Named.{IsNameSet, names_in};
ghost use Rattle.decl_table.specs.UnitFacts.{IsLowerOf, IsUpperOf, AddsBounds};
ghost use Rattle.decl_table.specs.UnitFacts as spec;

use constant_values::{Constants, bound_value};
use f_tree::{Dimension, Expr, UpperBound};
use name_facts::Bound;
use name_table::NameSet;
use plain_data::Items;
use std::alloc::{AllocError, Global};

/// The number that a lower bound is worth: 1 where none is written.
fn lower_value(
    alloc: Global,
    constants: &Constants,
    functions: &NameSet,
    lower: &Option<Expr>,
) -> Result<Option<i32>, AllocError>
    requires { IsNameSet functions.now }
    ensures { IfOk result (λ number. IsLowerOf constants.now (names_in functions.now) lower.now number) }
{
    match lower {
        Some(e) => bound_value(alloc, constants, functions, e),
        None => Ok(Some(1)),
    }
}

/// An upper bound that is written, where it is worth a number.
fn written(number: Option<i32>) -> Option<Option<i32>>
    ensures { result ≡ option_map Some number }
{
    match number {
        Some(number) => Some(Some(number)),
        None => None,
    }
}

/// An upper bound, where it is worth a number or is `*`, which is worth none.
fn upper_value(
    alloc: Global,
    constants: &Constants,
    functions: &NameSet,
    upper: &UpperBound,
) -> Result<Option<Option<i32>>, AllocError>
    requires { IsNameSet functions.now }
    ensures { IfOk result (λ number. IsUpperOf constants.now (names_in functions.now) upper.now number) }
{
    match upper {
        UpperBound::Value(e) => Ok(written(bound_value(alloc, constants, functions, e)?)),
        UpperBound::Star => Ok(Some(None)),
    }
}

/// Adds the bounds of a dimension where both are numbers, or the upper one is `*`.
fn add_between(
    bounds: &mut Items<Bound>,
    lower: Option<i32>,
    upper: Option<Option<i32>>,
) -> Result<(), AllocError>
    ensures { OnOk result (map bounds_of bounds.new ≡ map bounds_of bounds.old ++ bounds_between lower upper) }
{
    match lower {
        Some(lower) => match upper {
            Some(upper) => bounds.push(Bound { lower, upper }),
            None => Ok(()),
        },
        None => Ok(()),
    }
}

/// Adds the bounds of a dimension where both are constant, or the upper one is `*`. Section 5.1.2.
fn add_bound(
    alloc: Global,
    constants: &Constants,
    functions: &NameSet,
    bounds: &mut Items<Bound>,
    dimension: &Dimension,
) -> Result<(), AllocError>
    requires { IsNameSet functions.now }
    ensures { OnOk result (AddsBounds constants.now (names_in functions.now) bounds.old bounds.new (dimension.now ∷ [])) }
{
    let lower = lower_value(alloc, constants, functions, &dimension.lower)?;
    let upper = upper_value(alloc, constants, functions, &dimension.upper)?;
    add_between(bounds, lower, upper)
}

/// The bounds of those dimensions whose bounds are constant, or constant but for `*`. An error where memory ran out.
pub(crate) fn constant_bounds(
    alloc: Global,
    constants: &Constants,
    functions: &NameSet,
    dimensions: &[Dimension],
) -> Result<Items<Bound>, AllocError>
    requires { IsNameSet functions.now }
    ensures { IfOk result (λ bounds. AddsBounds constants.now (names_in functions.now) [] bounds dimensions.now) }
{
    let mut bounds = Items::new(alloc);
    for dimension in dimensions {
        add_bound(alloc, constants, functions, &mut bounds, dimension)?;
    }
    Ok(bounds)
}

/// Whether the upper bound of a dimension is `*`.
#[tactic(auto, unfolding(crate::specs::UnitFacts::is_open))]
fn is_open(dimension: &Dimension) -> bool
    ensures { result ≡ spec.is_open dimension.now }
{
    match dimension.upper {
        UpperBound::Star => true,
        UpperBound::Value(_) => false,
    }
}

/// Whether no upper bound is `*`. Section 5.1.2.
#[tactic(auto, unfolding(crate::specs::UnitFacts::all_closed))]
pub(crate) fn has_size(dimensions: &[Dimension]) -> bool
    ensures { result ≡ spec.all_closed dimensions.now }
{
    for dimension in dimensions {
        if is_open(dimension) {
            return false;
        }
    }
    true
}
