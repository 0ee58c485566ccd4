//! The variables and arrays of places in DATA and EQUIVALENCE. Sections 8.2 and 9.
#![tactic(auto)]

ghost use Rattle.std.specs.Prelude.{◌≡◌, ◌++◌, ◌∷◌, [], OnOk, map, option_copied};
ghost use Rattle.f_tree.specs.Attributes.{option_list};
ghost use Rattle.declaration_rows.specs.GivenRows as rows;
ghost use Rattle.declaration_rows.specs.GivenRows.{given, owners, owners_of, owners_in, data_owners, tied_owners};
ghost use Rattle.given_judge.specs.GiftsSeen.{gift_in, givens_in};

use crate::gifts::Gift;
use crate::givens::{GivenName, add_given};
use f_tree::{DataGroup, EquivalenceGroup, Expr, ListItem};
use std::alloc::AllocError;

/// The variable or array of a place.
#[cycle(owner)]
#[tactic(auto, unfolding(f_tree::specs::Attributes::option_list), using(crate::proofs::OwnerForms::owner_forms))]
fn owner_of(e: &Expr) -> Option<&[u8]>
    ensures { option_list (option_copied result) ≡ owners e.now }
{
    match e {
        Expr::Name(name) | Expr::Apply(name, _) => Some(name.as_slice()),
        Expr::Part(base, _, _) => owner_of(base.get()),
        Expr::Int(_) | Expr::Logical(_) | Expr::Text(_) => None,
        Expr::Minus(_) | Expr::Plus(_) | Expr::Not(_) => None,
        Expr::Paren(_) | Expr::Binary(..) | Expr::AltReturn(_) => None,
        Expr::Bind(..) | Expr::Bound(_) => None,
    }
}

/// Adds what is given to the variable or array of a place.
fn add_owner<'a>(givens: &mut Vec<GivenName<'a>>, gift: Gift, e: &'a Expr) -> Result<(), AllocError>
    ensures { OnOk result (givens_in givens.new.items ≡ givens_in givens.old.items ++ map (given (gift_in gift)) (owners e.now)) }
{
    match owner_of(e) {
        Some(name) => add_given(givens, gift, name),
        None => Ok(()),
    }
}

/// Adds what is given to the variables and arrays of places.
fn add_owners<'a>(
    givens: &mut Vec<GivenName<'a>>,
    gift: Gift,
    es: &'a [Expr],
) -> Result<(), AllocError>
    ensures { OnOk result (givens_in givens.new.items ≡ givens_in givens.old.items ++ map (given (gift_in gift)) (owners_of es.now)) }
{
    for e in es {
        add_owner(givens, gift, e)?;
    }
    Ok(())
}

/// Adds the variables and arrays of an EQUIVALENCE statement. Section 8.2.
pub(crate) fn add_equivalences<'a>(
    givens: &mut Vec<GivenName<'a>>,
    groups: &'a [EquivalenceGroup],
) -> Result<(), AllocError>
    ensures { OnOk result (givens_in givens.new.items ≡ givens_in givens.old.items ++ map (given rows.EquivalencedOf) (tied_owners groups.now)) }
{
    for group in groups {
        add_owners(givens, Gift::EquivalencedOf, group.places.as_slice())?;
    }
    Ok(())
}

/// Adds the variables and arrays of an item of DATA.
#[cycle(places)]
fn add_place<'a>(givens: &mut Vec<GivenName<'a>>, item: &'a ListItem) -> Result<(), AllocError>
    ensures { OnOk result (givens_in givens.new.items ≡ givens_in givens.old.items ++ map (given rows.DataOf) (owners_in (item.now ∷ []))) }
{
    match item {
        ListItem::Item(e) => add_owner(givens, Gift::DataOf, e),
        ListItem::Loop(items, _) => add_places(givens, items.as_slice()),
    }
}

/// Adds the variables and arrays of items of DATA.
#[cycle(places)]
fn add_places<'a>(givens: &mut Vec<GivenName<'a>>, items: &'a [ListItem]) -> Result<(), AllocError>
    ensures { OnOk result (givens_in givens.new.items ≡ givens_in givens.old.items ++ map (given rows.DataOf) (owners_in items.now)) }
{
    for item in items {
        add_place(givens, item)?;
    }
    Ok(())
}

/// Adds the variables and arrays of a DATA statement. Section 9.
pub(crate) fn add_data<'a>(
    givens: &mut Vec<GivenName<'a>>,
    groups: &'a [DataGroup],
) -> Result<(), AllocError>
    ensures { OnOk result (givens_in givens.new.items ≡ givens_in givens.old.items ++ map (given rows.DataOf) (data_owners groups.now)) }
{
    for group in groups {
        add_places(givens, group.places.as_slice())?;
    }
    Ok(())
}
