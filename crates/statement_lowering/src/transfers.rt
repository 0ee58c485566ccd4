//! READ, WRITE and PRINT. Sections 12.8 and 12.9.

ghost use Rattle.std.specs.Prelude.{◌≡◌, ◌++◌, ◌∷◌, [], true, Some, IfOk, OnOk, length, option_map, reverse};
ghost use Rattle.f_tree.specs.Facts as fact;
ghost use Rattle.f_tree.specs.Lines as lines;
ghost use Rattle.f_tree.specs.Lines.{Naming};
ghost use Rattle.lowered_tree.specs.l_core.Pures as core;
ghost use Rattle.lowered_tree.specs.l_core.Steps as act;
ghost use Rattle.lowering.specs.Statements as code;
ghost use Rattle.lowered_tree.specs.Shapes as shapes;
ghost use Rattle.lowered_tree.specs.Shapes.{pure_of, pures_of, step_of, steps_of};
ghost use Rattle.expression_lowering.specs.Purposes.{purpose_of};
ghost use Rattle.expression_lowering.specs.TableNames.{AreFactsOf, is_lowered_value};
ghost use Rattle.statement_lowering.specs.TransferForms as form;
ghost use Rattle.statement_lowering.specs.LoweredTransfers as spec;
ghost use Rattle.statement_lowering.specs.StatementOutcomes.{IsOutcome, IsLoweredForm};

use crate::appending::{append_steps, push_step};
use crate::around::Around;
use crate::controls::{
    Taken, controls_lower, is_element, is_variable, lower_controls, lower_taken, names_array,
    settled, written,
};
use expression_lowering::{LowerError, Purpose, is_lowered};
use f_tree::Expr;
use f_tree::statements::{Control, ControlValue, ControlWord, Direction, ListItem};
use lowered_tree::{Acting, Layout, Pure, Step};
use name_facts::NameFacts;
use plain_data::Items;
use std::alloc::{AllocError, Global};

/// How a format lays the records out.
#[tactic(auto, unfolding(crate::specs::TransferForms::layout_by))]
fn layout_by(value: &ControlValue) -> Layout
    ensures { shapes.layout_of result ≡ form.layout_by value.now }
{
    match value {
        ControlValue::Star => Layout::Listed,
        ControlValue::Label(label) => Layout::Labelled(*label),
        ControlValue::Value(_) => Layout::Computed,
    }
}

/// How a control word lays the records out, where it is that of a format.
#[tactic(auto, unfolding(crate::specs::TransferForms::layout_of))]
fn layout_of(control: &Control) -> Option<Layout>
    ensures { option_map shapes.layout_of result ≡ form.layout_of control.now.word control.now.value }
{
    match control.word {
        ControlWord::Format => Some(layout_by(&control.value)),
        ControlWord::Unit | ControlWord::Status | ControlWord::OnError => None,
        ControlWord::OnEnd | ControlWord::File | ControlWord::FileStatus => None,
        ControlWord::Access | ControlWord::Form | ControlWord::Blank => None,
    }
}

/// How a transfer is laid out: without a format it is unformatted.
fn layout_in(controls: &[Control]) -> Layout
    ensures { (way : fact.Direction) (names : Naming) → shapes.layout_of result ≡ lines.layout_written (lines.controls_written way names controls.now).layout }
{
    for control in controls {
        match layout_of(control) {
            Some(layout) => return layout,
            None => {}
        }
    }
    Layout::Unformatted
}

/// Whether a transfer reads or writes, as steps have it.
#[tactic(auto, unfolding(f_tree::specs::Lines::way_of))]
fn direction_of(way: Direction) -> lowered_tree::Direction
    ensures { shapes.direction_of result ≡ lines.way_of way }
{
    match way {
        Direction::Read => lowered_tree::Direction::Input,
        Direction::Write => lowered_tree::Direction::Output,
    }
}

/// Whether the value of an expression is fetched from a place: parentheses and a sign + leave it so.
#[tactic(auto, using(crate::proofs::TransferItems::fetched_forms))]
fn is_fetched(table: &NameFacts, e: &Expr) -> bool
    ensures { result ≡ spec.is_fetched table.now e.now }
{
    match e {
        Expr::Name(name) => is_variable(table.class(name.as_slice())),
        Expr::Apply(name, _) => is_element(table.class(name.as_slice())),
        Expr::Part(_, _, _) => true,
        Expr::Plus(operand) | Expr::Paren(operand) => is_fetched(table, operand.get()),
        Expr::Int(_) | Expr::Logical(_) | Expr::Text(_) | Expr::Minus(_) => false,
        Expr::Not(_) | Expr::Binary(_, _, _) | Expr::AltReturn(_) => false,
        Expr::Bind(_, _) | Expr::Bound(_) => false,
    }
}

/// What is taken of an item that is read: a place.
fn received(table: &NameFacts, e: &Expr) -> Taken
    requires { is_lowered_value table.now e.now ≡ true }
    ensures { (names : Naming) → AreFactsOf names table.now → form.taking result e.now names ≡ form.taking_or Taken.Alone e.now names }
{
    if names_array(table, e) {
        Taken::Whole
    } else {
        Taken::Alone
    }
}

/// What is taken of an item that is written by a list: a value.
fn valued(table: &NameFacts, e: &Expr) -> Taken
    requires { is_lowered_value table.now e.now ≡ true }
    ensures { (names : Naming) → AreFactsOf names table.now → form.taking result e.now names ≡ form.taking_or Taken.Value e.now names }
{
    if names_array(table, e) {
        Taken::Whole
    } else {
        Taken::Value
    }
}

/// Whether a transfer is list-directed.
#[tactic(auto, unfolding(crate::specs::TransferForms::is_listed))]
fn is_listed(how: Layout) -> bool
    ensures { result ≡ form.is_listed (shapes.layout_of how) }
{
    match how {
        Layout::Listed => true,
        Layout::Labelled(_) | Layout::Computed | Layout::Unformatted => false,
    }
}

/// What is taken of an item that is written.
fn sent(table: &NameFacts, how: Layout, e: &Expr) -> Taken
    requires { is_lowered_value table.now e.now ≡ true }
    ensures { (names : Naming) → AreFactsOf names table.now → form.taking result e.now names ≡ lines.item_of fact.Output (shapes.layout_of how) names e.now }
{
    if is_listed(how) {
        valued(table, e)
    } else {
        settled(table, e)
    }
}

/// What is taken of an item.
fn item_taken(table: &NameFacts, way: Direction, how: Layout, e: &Expr) -> Taken
    requires { is_lowered_value table.now e.now ≡ true }
    ensures { (names : Naming) → AreFactsOf names table.now → form.taking result e.now names ≡ lines.item_of (lines.way_of way) (shapes.layout_of how) names e.now }
{
    match way {
        Direction::Read => received(table, e),
        Direction::Write => sent(table, how, e),
    }
}

/// What the value of an item is for: one that is fetched is handed on where it stands, another has an address once it is kept.
fn value_purpose(table: &NameFacts, e: &Expr) -> Purpose
    requires { is_lowered_value table.now e.now ≡ true }
    ensures { (names : Naming) → AreFactsOf names table.now → purpose_of result ≡ code.item_purpose (form.taking Taken.Value e.now names) }
{
    if is_fetched(table, e) {
        Purpose::ForUse
    } else {
        Purpose::ForCall
    }
}

/// What an item is for.
fn item_purpose(table: &NameFacts, taken: Taken, e: &Expr) -> Purpose
    requires { is_lowered_value table.now e.now ≡ true }
    ensures { (names : Naming) → AreFactsOf names table.now → purpose_of result ≡ code.item_purpose (form.taking taken e.now names) }
{
    match taken {
        Taken::Value => value_purpose(table, e),
        Taken::Alone => Purpose::ForCall,
        Taken::Whole => Purpose::ForCall,
    }
}

/// The step that takes an item, given how many steps stand behind it.
#[tactic(auto, using(lowered_tree::proofs::ShapeForms::pure_forms))]
fn takes(alloc: Global, value: Pure, behind: usize) -> Result<Step, AllocError>
    ensures { IfOk result (λ step. step_of step ≡ act.Acts act.Takes (core.AndPure (pure_of value) core.NoPure) behind) }
{
    let mut values = Items::new(alloc);
    values.push(value)?;
    Ok(Step::Acts(Acting::Takes, values, behind))
}

/// Puts the steps of an item, and the one that takes it, before those behind it, the last of which comes first.
fn put_before(
    alloc: Global,
    value: Pure,
    mut one: Vec<Step>,
    behind: &mut Vec<Step>,
) -> Result<(), AllocError>
    ensures { OnOk result (steps_of (reverse behind.new.items) ≡ steps_of one.items ++ act.Acts act.Takes (core.AndPure (pure_of value) core.NoPure) (length behind.old.items) ∷ steps_of (reverse behind.old.items)) }
{
    let step = takes(alloc, value, behind.len())?;
    behind.push(step)?;
    one.reverse();
    behind.append(&mut one)
}

/// Puts the steps of an item that is an expression before those behind it, the last of which comes first.
fn put_expression(
    alloc: Global,
    table: &NameFacts,
    way: Direction,
    how: Layout,
    free: usize,
    e: &Expr,
    behind: &mut Vec<Step>,
) -> Result<(), AllocError>
    requires { is_lowered_value table.now e.now ≡ true }
    ensures { OnOk result ((names : Naming) → AreFactsOf names table.now → code.item_code free (lines.item_of (lines.way_of way) (shapes.layout_of how) names e.now) (Some (steps_of (reverse behind.old.items))) ≡ Some (steps_of (reverse behind.new.items))) }
{
    let taken = item_taken(table, way, how, e);
    let purpose = item_purpose(table, taken, e);
    let mut one = Vec::new(alloc);
    let value = lower_taken(alloc, table, taken, purpose, free, e, &mut one)?;
    put_before(alloc, value.value, one, behind)
}

/// Puts the steps of an item before those behind it, the last of which comes first.
#[tactic(auto, using(crate::proofs::TransferItems::item_forms))]
fn put_item(
    alloc: Global,
    table: &NameFacts,
    way: Direction,
    how: Layout,
    free: usize,
    item: &ListItem,
    behind: &mut Vec<Step>,
) -> Result<(), AllocError>
    requires { spec.item_lowers table.now item.now ≡ true }
    ensures { OnOk result ((names : Naming) (rest : fact.Work) → AreFactsOf names table.now → code.work_code free rest ≡ Some (steps_of (reverse behind.old.items)) → code.work_code free (fact.Before (lines.job_of (lines.way_of way) (shapes.layout_of how) names item.now) rest) ≡ Some (steps_of (reverse behind.new.items))) }
{
    match item {
        ListItem::Item(e) => put_expression(alloc, table, way, how, free, e, behind),
        ListItem::Loop(_, _) => unreachable!(),
    }
}

/// The step that ends a transfer.
#[tactic(auto, using(lowered_tree::proofs::ShapeForms::pure_forms))]
fn finish(alloc: Global) -> Step
    ensures { step_of result ≡ act.Acts act.Finishes core.NoPure 0 }
{
    Step::Acts(Acting::Finishes, Items::new(alloc), 0)
}

/// The end of a transfer.
fn finishes(alloc: Global) -> Result<Vec<Step>, AllocError>
    ensures { IfOk result (λ steps. steps_of (reverse steps.items) ≡ act.Acts act.Finishes core.NoPure 0 ∷ []) }
{
    let mut steps = Vec::new(alloc);
    let step = finish(alloc);
    steps.push(step)?;
    Ok(steps)
}

/// The steps of the items of a list, and the end of the transfer behind them.
fn lower_items(
    alloc: Global,
    table: &NameFacts,
    way: Direction,
    how: Layout,
    free: usize,
    items: &[ListItem],
) -> Result<Vec<Step>, AllocError>
    requires { spec.items_lower table.now items.now ≡ true }
    ensures { IfOk result (λ steps. (names : Naming) → AreFactsOf names table.now → code.work_code free (lines.jobs_of (lines.way_of way) (shapes.layout_of how) names items.now) ≡ Some (steps_of steps.items)) }
{
    let mut behind = finishes(alloc)?;
    let mut at = items.len();
    while at > 0 {
        at -= 1;
        put_item(alloc, table, way, how, free, &items[at], &mut behind)?;
    }
    behind.reverse();
    Ok(behind)
}

/// Whether an item of a list is lowered.
#[tactic(auto, using(crate::proofs::TransferItems::item_forms))]
fn item_lowers(table: &NameFacts, item: &ListItem) -> bool
    ensures { result ≡ spec.item_lowers table.now item.now }
{
    match item {
        ListItem::Item(e) => is_lowered(table, e),
        ListItem::Loop(_, _) => false,
    }
}

/// Whether all items of a list are lowered.
#[tactic(auto, unfolding(crate::specs::LoweredTransfers::items_lower, expression_lowering::specs::TableNames::all_lower))]
fn items_lower(table: &NameFacts, items: &[ListItem]) -> bool
    ensures { result ≡ spec.items_lower table.now items.now }
{
    for item in items {
        if !item_lowers(table, item) {
            return false;
        }
    }
    true
}

/// Whether a transfer is lowered.
#[tactic(auto, unfolding(crate::specs::LoweredTransfers::transfer_lowers))]
fn transfer_lowers(
    table: &NameFacts,
    way: Direction,
    controls: &[Control],
    items: &[ListItem],
) -> bool
    ensures { result ≡ spec.transfer_lowers table.now way controls.now items.now }
{
    controls_lower(table, controls) && items_lower(table, items)
}

/// Appends the start of a transfer, and the steps behind it.
fn push_listed(
    start: Acting,
    values: Items<Pure>,
    listed: Vec<Step>,
    steps: &mut Vec<Step>,
) -> Result<(), AllocError>
    ensures { OnOk result (steps_of steps.new.items ≡ steps_of steps.old.items ++ act.Acts (shapes.acting_of start) (pures_of values) (length listed.items) ∷ steps_of listed.items) }
{
    let behind = listed.len();
    push_step(steps, Step::Acts(start, values, behind))?;
    append_steps(steps, listed)
}

/// Appends the steps of a transfer of a form that is lowered.
fn push_transfer(
    alloc: Global,
    table: &NameFacts,
    around: Around,
    way: Direction,
    controls: &[Control],
    items: &[ListItem],
    steps: &mut Vec<Step>,
) -> Result<(), AllocError>
    requires { spec.transfer_lowers table.now way controls.now items.now ≡ true }
    ensures { OnOk result (IsLoweredForm table.now around (spec.transfer_lowers table.now way controls.now items.now) (form.transferring way controls.now items.now) steps.old.items steps.new.items) }
{
    let how = layout_in(controls);
    let words = written(alloc, controls)?;
    let start = Acting::Starts(direction_of(way), how, words);
    let values = lower_controls(alloc, table, way, around.free, controls, steps)?;
    let listed = lower_items(alloc, table, way, how, around.free, items)?;
    push_listed(start, values, listed, steps)
}

/// READ, WRITE and PRINT. Section 12.8.
#[tactic(auto, unfolding(crate::specs::StatementOutcomes::IsOutcome))]
pub(crate) fn lower_transfer(
    alloc: Global,
    table: &NameFacts,
    around: Around,
    way: Direction,
    controls: &[Control],
    items: &[ListItem],
    steps: &mut Vec<Step>,
) -> Result<(), LowerError>
    ensures { IsOutcome table.now around (spec.transfer_lowers table.now way controls.now items.now) (form.transferring way controls.now items.now) steps.old.items steps.new.items result }
{
    if !transfer_lowers(table, way, controls, items) {
        return Err(LowerError::NotLowered);
    }
    match push_transfer(alloc, table, around, way, controls, items, steps) {
        Ok(()) => Ok(()),
        Err(AllocError) => Err(LowerError::NoMemory),
    }
}
