//! The names of lists of items, in READ, WRITE, PRINT and DATA. Sections 9 and 12.8.2.
#![tactic(auto)]

ghost use Rattle.std.specs.Prelude.{◌≡◌, ◌++◌, ◌∷◌, [], OnOk, if◌then◌else◌};
ghost use Rattle.f_tree.specs.Uses as written;
ghost use Rattle.f_tree.specs.Uses.{used, uses_of, all_of, if_any, is_among, without, uses_of_control, uses_of_item, uses_of_place, uses_of_data};
ghost use Rattle.f_tree.specs.declared.statements.DataGroup as data_group;
ghost use Rattle.name_table.specs.Named.{texts};
ghost use Rattle.name_uses.specs.UsesSeen.{used_in, use_of, manner_in, unless_hidden};

use crate::expressions::{add_optional, add_uses_of};
use crate::uses::{Manner, Use, add_use};
use f_tree::{DataGroup, DataValue, ListItem, LoopControl};
use std::alloc::{AllocError, Global};

/// Whether a name is hidden by those of a list.
#[tactic(auto, unfolding(f_tree::specs::Uses::is_among))]
fn is_hidden(name: &[u8], hidden: &[&[u8]]) -> bool
    ensures { result ≡ is_among name.now (texts hidden.now) }
{
    match hidden {
        [first, rest @ ..] => name == *first || is_hidden(name, rest),
        [] => false,
    }
}

/// Adds a use unless its name is hidden.
#[tactic(auto, unfolding(crate::specs::UsesSeen::unless_hidden, crate::specs::UsesSeen::use_of))]
fn add_unless_hidden<'a>(
    uses: &mut Vec<Use<'a>>,
    one: Use<'a>,
    hidden: &[&[u8]],
) -> Result<(), AllocError>
    ensures { OnOk result (used_in uses.new.items ≡ used_in uses.old.items ++ unless_hidden (texts hidden.now) (use_of one.entry)) }
{
    if is_hidden(one.name, hidden) {
        return Ok(());
    }
    uses.push(one)?;
    Ok(())
}

/// Adds the uses of names that are not hidden.
pub(crate) fn add_without<'a>(
    uses: &mut Vec<Use<'a>>,
    inner: &[Use<'a>],
    hidden: &[&[u8]],
) -> Result<(), AllocError>
    ensures { OnOk result (used_in uses.new.items ≡ used_in uses.old.items ++ without (texts hidden.now) (used_in inner.now)) }
{
    for one in inner {
        add_unless_hidden(uses, *one, hidden)?;
    }
    Ok(())
}

/// Adds the names of the first value, the limit and the step of a loop.
fn add_bounds<'a>(uses: &mut Vec<Use<'a>>, control: &'a LoopControl) -> Result<(), AllocError>
    ensures { OnOk result (used_in uses.new.items
        ≡ used_in uses.old.items ++ (uses_of control.now.first ++ uses_of control.now.limit ++ if_any uses_of control.now.step)) }
{
    add_uses_of(uses, &control.first)?;
    add_uses_of(uses, &control.limit)?;
    add_optional(uses, &control.step)
}

/// Adds the names of the variable of a loop, its first value, its limit and its step.
#[tactic(auto, unfolding(crate::specs::UsesSeen::manner_in))]
pub(crate) fn add_control<'a>(
    uses: &mut Vec<Use<'a>>,
    control: &'a LoopControl,
) -> Result<(), AllocError>
    ensures { OnOk result (used_in uses.new.items ≡ used_in uses.old.items ++ uses_of_control control.now) }
{
    add_use(uses, control.variable.as_slice(), Manner::Alone)?;
    add_bounds(uses, control)
}

/// Adds the names of an item of READ, WRITE or PRINT.
#[cycle(items)]
fn add_item<'a>(uses: &mut Vec<Use<'a>>, item: &'a ListItem) -> Result<(), AllocError>
    ensures { OnOk result (used_in uses.new.items ≡ used_in uses.old.items ++ uses_of_item item.now) }
{
    match item {
        ListItem::Item(e) => add_uses_of(uses, e),
        ListItem::Loop(items, control) => {
            add_items(uses, items.as_slice())?;
            add_control(uses, control)
        }
    }
}

/// Adds the names of the items of READ, WRITE or PRINT.
#[cycle(items)]
pub(crate) fn add_items<'a>(
    uses: &mut Vec<Use<'a>>,
    items: &'a [ListItem],
) -> Result<(), AllocError>
    ensures { OnOk result (used_in uses.new.items ≡ used_in uses.old.items ++ all_of uses_of_item items.now) }
{
    for item in items {
        add_item(uses, item)?;
    }
    Ok(())
}

/// Adds the names of an item of DATA: the variable of an implied DO is a name of its list alone.
#[cycle(places)]
fn add_place<'a>(
    alloc: Global,
    uses: &mut Vec<Use<'a>>,
    item: &'a ListItem,
) -> Result<(), AllocError>
    ensures { OnOk result (used_in uses.new.items ≡ used_in uses.old.items ++ uses_of_place item.now) }
{
    match item {
        ListItem::Item(e) => add_uses_of(uses, e),
        ListItem::Loop(items, control) => {
            let mut inner = Vec::new(alloc);
            add_places(alloc, &mut inner, items.as_slice())?;
            add_bounds(&mut inner, control)?;
            add_without(uses, inner.as_slice(), &[control.variable.as_slice()])
        }
    }
}

/// Adds the names of the items of DATA.
#[cycle(places)]
fn add_places<'a>(
    alloc: Global,
    uses: &mut Vec<Use<'a>>,
    items: &'a [ListItem],
) -> Result<(), AllocError>
    ensures { OnOk result (used_in uses.new.items ≡ used_in uses.old.items ++ all_of uses_of_place items.now) }
{
    for item in items {
        add_place(alloc, uses, item)?;
    }
    Ok(())
}

/// Adds the names of a value of DATA.
#[tactic(auto, unfolding(f_tree::specs::Uses::uses_of_data))]
fn add_data_value<'a>(uses: &mut Vec<Use<'a>>, value: &'a DataValue) -> Result<(), AllocError>
    ensures { OnOk result (used_in uses.new.items ≡ used_in uses.old.items ++ uses_of_data value.now) }
{
    add_optional(uses, &value.count)?;
    add_uses_of(uses, &value.value)
}

/// Adds the names of values of DATA.
fn add_data_values<'a>(uses: &mut Vec<Use<'a>>, values: &'a [DataValue]) -> Result<(), AllocError>
    ensures { OnOk result (used_in uses.new.items ≡ used_in uses.old.items ++ all_of uses_of_data values.now) }
{
    for value in values {
        add_data_value(uses, value)?;
    }
    Ok(())
}

/// Adds the names of places and values of DATA.
fn add_data_group<'a>(
    alloc: Global,
    uses: &mut Vec<Use<'a>>,
    group: &'a DataGroup,
) -> Result<(), AllocError>
    ensures { OnOk result (used_in uses.new.items
        ≡ used_in uses.old.items ++ (all_of uses_of_place group.now.places ++ all_of uses_of_data group.now.values)) }
{
    add_places(alloc, uses, group.places.as_slice())?;
    add_data_values(uses, group.values.as_slice())
}

/// Adds the names of a DATA statement.
pub(crate) fn add_data_groups<'a>(
    alloc: Global,
    uses: &mut Vec<Use<'a>>,
    groups: &'a [DataGroup],
) -> Result<(), AllocError>
    ensures { OnOk result (used_in uses.new.items
        ≡ used_in uses.old.items ++ all_of (λ (g : data_group.DataGroup). all_of uses_of_place g.places ++ all_of uses_of_data g.values) groups.now) }
{
    for group in groups {
        add_data_group(alloc, uses, group)?;
    }
    Ok(())
}
