//! Places that are written alike: a name, what a name points to, or an element of an array by its number. C89, 3.3.2.1 and 3.3.3.2.

ghost use Rattle.std.specs.Prelude.{◌≡◌, option_copied};
ghost use Rattle.named_items.specs.SamePlaces as spec;

use c_tree::expression::{CExpr, UnaryOp};

/// The name that an expression is.
#[tactic(auto, using(named_items::proofs::Forms::place_forms))]
fn name_in(e: &CExpr) -> Option<&[u8]>
    ensures { option_copied result ≡ spec.name_in e.now }
{
    match e {
        CExpr::Name(name) => Some(name.as_slice()),
        _ => None,
    }
}

/// The number that an expression is.
#[tactic(auto, using(named_items::proofs::Forms::place_forms))]
pub(crate) fn number_in(e: &CExpr) -> Option<i32>
    ensures { result ≡ spec.number_in e.now }
{
    match e {
        CExpr::Number(number) => Some(*number),
        _ => None,
    }
}

/// The name behind an operator that reads through a pointer.
#[tactic(auto, unfolding(named_items::specs::SamePlaces::pointed_in))]
fn pointed_in(operator: UnaryOp, e: &CExpr) -> Option<&[u8]>
    ensures { option_copied result ≡ spec.pointed_in operator e.now }
{
    match operator {
        UnaryOp::Deref => name_in(e),
        UnaryOp::Minus | UnaryOp::Not | UnaryOp::Address => None,
    }
}

/// The name of the pointer through which an expression reads.
#[tactic(auto, using(named_items::proofs::Forms::place_forms))]
fn pointer_in(e: &CExpr) -> Option<&[u8]>
    ensures { option_copied result ≡ spec.pointer_in e.now }
{
    match e {
        CExpr::Unary(operator, e) => pointed_in(*operator, e.get()),
        _ => None,
    }
}

/// The name of the array of which an expression is an element.
#[tactic(auto, using(named_items::proofs::Forms::place_forms))]
fn array_in(e: &CExpr) -> Option<&[u8]>
    ensures { option_copied result ≡ spec.array_in e.now }
{
    match e {
        CExpr::Index(array, _) => name_in(array.get()),
        _ => None,
    }
}

/// The number of the element that an expression is.
#[tactic(auto, using(named_items::proofs::Forms::place_forms))]
fn element_in(e: &CExpr) -> Option<i32>
    ensures { result ≡ spec.element_in e.now }
{
    match e {
        CExpr::Index(_, number) => number_in(number.get()),
        _ => None,
    }
}

/// Whether two names are there and are the same.
#[tactic(auto, unfolding(named_items::specs::SamePlaces::same_names))]
fn same_names(one: Option<&[u8]>, other: Option<&[u8]>) -> bool
    ensures { result ≡ spec.same_names (option_copied one.entry) (option_copied other.entry) }
{
    match (one, other) {
        (Some(one), Some(other)) => one == other,
        _ => false,
    }
}

/// Whether two numbers are there and are the same.
#[tactic(auto, unfolding(named_items::specs::SamePlaces::same_numbers))]
fn same_numbers(one: Option<i32>, other: Option<i32>) -> bool
    ensures { result ≡ spec.same_numbers one other }
{
    match (one, other) {
        (Some(one), Some(other)) => one == other,
        _ => false,
    }
}

/// Whether two expressions are elements of one array with one number.
#[tactic(auto, unfolding(named_items::specs::SamePlaces::same_elements))]
fn same_elements(one: &CExpr, other: &CExpr) -> bool
    ensures { result ≡ spec.same_elements one.now other.now }
{
    same_names(array_in(one), array_in(other)) && same_numbers(element_in(one), element_in(other))
}

/// Whether two expressions are places that are written alike.
#[tactic(auto, unfolding(named_items::specs::SamePlaces::same_expr))]
pub(crate) fn are_alike(one: &CExpr, other: &CExpr) -> bool
    ensures { result ≡ spec.same_expr one.now other.now }
{
    same_names(name_in(one), name_in(other))
        || same_names(pointer_in(one), pointer_in(other))
        || same_elements(one, other)
}
