//! The names of assignments, and of definitions of statement functions, whose dummy arguments are names of their statement alone. Sections
//! 10.1 to 10.4 and 15.4.
#![tactic(auto)]

ghost use Rattle.std.specs.Prelude.{◌≡◌, ◌++◌, ◌∷◌, [], OnOk, IfOk, option_copied, map};
ghost use Rattle.f_tree.specs.Uses.{uses_of, without, heading_of, alone_in, defines_function, uses_of_assignment};
ghost use Rattle.name_table.specs.Named.{names_in, IsNameSet, texts};
ghost use Rattle.name_uses.specs.UsesSeen.{used_in};

use crate::expressions::add_uses_of;
use crate::items::add_without;
use crate::uses::Use;
use f_tree::Expr;
use name_table::NameSet;
use std::alloc::{AllocError, Global};

/// The name that an expression is.
#[tactic(auto, using(crate::proofs::Headings::heading_forms))]
pub fn name_alone(e: &Expr) -> Option<&[u8]>
    ensures { option_copied result ≡ (heading_of e.now).alone }
{
    match e {
        Expr::Name(name) => Some(name.as_slice()),
        Expr::Int(_) | Expr::Logical(_) | Expr::Text(_) | Expr::Apply(..) => None,
        Expr::Part(..) | Expr::Minus(_) | Expr::Plus(_) | Expr::Not(_) => None,
        Expr::Paren(_) | Expr::Binary(..) | Expr::AltReturn(_) => None,
        Expr::Bind(..) | Expr::Bound(_) => None,
    }
}

/// The name that stands in an expression with a list in parentheses behind it.
#[tactic(auto, using(crate::proofs::Headings::heading_forms))]
pub fn applied_name(e: &Expr) -> Option<&[u8]>
    ensures { option_copied result ≡ (heading_of e.now).applied }
{
    match e {
        Expr::Apply(name, _) => Some(name.as_slice()),
        Expr::Int(_) | Expr::Logical(_) | Expr::Text(_) | Expr::Name(_) => None,
        Expr::Part(..) | Expr::Minus(_) | Expr::Plus(_) | Expr::Not(_) => None,
        Expr::Paren(_) | Expr::Binary(..) | Expr::AltReturn(_) => None,
        Expr::Bind(..) | Expr::Bound(_) => None,
    }
}

/// Adds a name that stands alone.
#[tactic(auto, using(crate::proofs::Headings::alone_forms))]
fn add_alone<'a>(names: &mut Vec<&'a [u8]>, e: &'a Expr) -> Result<(), AllocError>
    ensures { OnOk result (texts names.new.items ≡ texts names.old.items ++ alone_in (heading_of e.now ∷ [])) }
{
    match name_alone(e) {
        Some(name) => {
            names.push(name)?;
            Ok(())
        }
        None => Ok(()),
    }
}

/// The names among expressions that stand alone.
fn alone_names<'a>(alloc: Global, es: &'a [Expr]) -> Result<Vec<&'a [u8]>, AllocError>
    ensures { IfOk result (λ names. texts names.items ≡ alone_in (map heading_of es.now)) }
{
    let mut names = Vec::new(alloc);
    for e in es {
        add_alone(&mut names, e)?;
    }
    Ok(names)
}

/// The names that stand alone in the list behind a name.
#[tactic(auto, using(crate::proofs::Headings::heading_forms))]
pub fn argument_names<'a>(alloc: Global, e: &'a Expr) -> Result<Vec<&'a [u8]>, AllocError>
    ensures { IfOk result (λ names. texts names.items ≡ (heading_of e.now).arguments) }
{
    match e {
        Expr::Apply(_, es) => alone_names(alloc, es.as_slice()),
        Expr::Int(_) | Expr::Logical(_) | Expr::Text(_) | Expr::Name(_) => Ok(Vec::new(alloc)),
        Expr::Part(..) | Expr::Minus(_) | Expr::Plus(_) => Ok(Vec::new(alloc)),
        Expr::Not(_) | Expr::Paren(_) | Expr::Binary(..) => Ok(Vec::new(alloc)),
        Expr::AltReturn(_) | Expr::Bind(..) | Expr::Bound(_) => Ok(Vec::new(alloc)),
    }
}

/// Whether an assignment defines a statement function: its target is a name with a list that is no array. Section 15.4.
#[tactic(auto, unfolding(f_tree::specs::Uses::defines_function))]
pub fn defines_function(arrays: &NameSet, target: &Expr) -> bool
    requires { IsNameSet arrays.now }
    ensures { result ≡ defines_function (names_in arrays.now) (heading_of target.now) }
{
    match applied_name(target) {
        Some(name) => !arrays.has(name),
        None => false,
    }
}

/// Adds the names of both sides of an assignment.
fn add_sides<'a>(
    uses: &mut Vec<Use<'a>>,
    target: &'a Expr,
    value: &'a Expr,
) -> Result<(), AllocError>
    ensures { OnOk result (used_in uses.new.items ≡ used_in uses.old.items ++ (uses_of target.now ++ uses_of value.now)) }
{
    add_uses_of(uses, target)?;
    add_uses_of(uses, value)
}

/// Adds the names of the definition of a statement function without its dummy arguments.
fn add_definition<'a>(
    alloc: Global,
    uses: &mut Vec<Use<'a>>,
    target: &'a Expr,
    value: &'a Expr,
) -> Result<(), AllocError>
    ensures { OnOk result (used_in uses.new.items
        ≡ used_in uses.old.items ++ without (heading_of target.now).arguments (uses_of target.now ++ uses_of value.now)) }
{
    let dummies = argument_names(alloc, target)?;
    let mut inner = Vec::new(alloc);
    add_sides(&mut inner, target, value)?;
    add_without(uses, inner.as_slice(), dummies.as_slice())
}

/// Adds the names of an assignment or of the definition of a statement function.
#[tactic(auto, unfolding(f_tree::specs::Uses::uses_of_assignment))]
pub(crate) fn add_assignment<'a>(
    alloc: Global,
    arrays: &NameSet,
    uses: &mut Vec<Use<'a>>,
    target: &'a Expr,
    value: &'a Expr,
) -> Result<(), AllocError>
    requires { IsNameSet arrays.now }
    ensures { OnOk result (used_in uses.new.items
        ≡ used_in uses.old.items ++ uses_of_assignment (names_in arrays.now) (heading_of target.now) target.now value.now) }
{
    if defines_function(arrays, target) {
        add_definition(alloc, uses, target, value)
    } else {
        add_sides(uses, target, value)
    }
}
