//! The names of expressions.
#![tactic(auto)]

ghost use Rattle.std.specs.Prelude.{◌≡◌, ◌++◌, OnOk, option_map};
ghost use Rattle.f_tree.specs.Uses as written;
ghost use Rattle.f_tree.specs.Uses.{used, uses_of, all_of, if_any, optional_uses};
ghost use Rattle.name_uses.specs.UsesSeen.{used_in};

use crate::uses::{Manner, Use, add_use};
use f_tree::Expr;
use plain_data::Boxed;
use std::alloc::AllocError;

/// Adds the names of an expression, from the left.
#[cycle(uses)]
#[tactic(auto, using(crate::proofs::UseForms::use_forms), unfolding(crate::specs::UsesSeen::manner_in))]
pub fn add_uses_of<'a>(uses: &mut Vec<Use<'a>>, e: &'a Expr) -> Result<(), AllocError>
    ensures { OnOk result (used_in uses.new.items ≡ used_in uses.old.items ++ uses_of e.now) }
{
    match e {
        Expr::Int(_) | Expr::Logical(_) | Expr::Text(_) => Ok(()),
        Expr::AltReturn(_) | Expr::Bound(_) => Ok(()),
        Expr::Name(name) => add_use(uses, name.as_slice(), Manner::Alone),
        Expr::Apply(name, es) => add_applied(uses, name.as_slice(), es.as_slice()),
        Expr::Part(base, from, to) => {
            add_uses_of(uses, base.get())?;
            add_place(uses, from)?;
            add_place(uses, to)
        }
        Expr::Minus(operand) | Expr::Plus(operand) => add_uses_of(uses, operand.get()),
        Expr::Not(operand) | Expr::Paren(operand) => add_uses_of(uses, operand.get()),
        Expr::Binary(_, left, right) => {
            add_uses_of(uses, left.get())?;
            add_uses_of(uses, right.get())
        }
        Expr::Bind(es, body) => {
            add_list_uses(uses, es.as_slice())?;
            add_uses_of(uses, body.get())
        }
    }
}

/// Adds a name with a list in parentheses, and the names of the list.
#[cycle(uses)]
#[tactic(auto, unfolding(crate::specs::UsesSeen::manner_in))]
fn add_applied<'a>(
    uses: &mut Vec<Use<'a>>,
    name: &'a [u8],
    es: &'a [Expr],
) -> Result<(), AllocError>
    ensures { OnOk result (used_in uses.new.items ≡ used_in uses.old.items ++ (used name.now written.WithList ++ all_of uses_of es.now)) }
{
    add_use(uses, name, Manner::WithList)?;
    add_list_uses(uses, es)
}

/// Adds the names of the first or the last place of a substring, if it is written.
#[cycle(uses)]
#[tactic(auto, unfolding(f_tree::specs::Uses::optional_uses))]
fn add_place<'a>(uses: &mut Vec<Use<'a>>, place: &'a Option<Boxed<Expr>>) -> Result<(), AllocError>
    ensures { OnOk result (used_in uses.new.items ≡ used_in uses.old.items ++ optional_uses (option_map uses_of place.now)) }
{
    match place {
        Some(e) => add_uses_of(uses, e.get()),
        None => Ok(()),
    }
}

/// Adds the names of expressions.
#[cycle(uses)]
pub(crate) fn add_list_uses<'a>(uses: &mut Vec<Use<'a>>, es: &'a [Expr]) -> Result<(), AllocError>
    ensures { OnOk result (used_in uses.new.items ≡ used_in uses.old.items ++ all_of uses_of es.now) }
{
    for e in es {
        add_uses_of(uses, e)?;
    }
    Ok(())
}

/// Adds the names of an expression that may be left out.
#[tactic(auto, unfolding(f_tree::specs::Uses::if_any))]
pub(crate) fn add_optional<'a>(
    uses: &mut Vec<Use<'a>>,
    e: &'a Option<Expr>,
) -> Result<(), AllocError>
    ensures { OnOk result (used_in uses.new.items ≡ used_in uses.old.items ++ if_any uses_of e.now) }
{
    match e {
        Some(e) => add_uses_of(uses, e),
        None => Ok(()),
    }
}
