//! Plans for items: tests with one arm or two, loops, and statements of their own.

ghost use Rattle.std.specs.Prelude.{◌≡◌, ◌+◌, ◌<◌, ◌≤◌, ◌^◌, IfOk, length, take};
ghost use Rattle.named_items.specs.declared.item.Item.TheVariants as item;
ghost use Rattle.named_items.specs.Layouts.{layout_of};
ghost use Rattle.named_items.specs.Structured as spec;
ghost use Rattle.statement_builder.specs.Plans.{Ahead, Plans, loop_plan, popped, steps, turns, whole};

use crate::cases::switch_for;
use crate::loop_tests::{at, end_of_arm, is_loop, is_tested_behind};
use crate::parts::{alone, statement_of};
use crate::plan::Plan;
use crate::span::Span;
use c_tree::expression::CExpr;
use named_items::{Case, Head, Item, Layout, Part};
use std::alloc::{AllocError, Global};
use std::collections::VecDeque;

/// No plan, in place of what is given.
fn unwritten<T: Drop>(_given: T) -> Plan
    ensures { result ≡ Plan.Unwritten }
{
    Plan::Unwritten
}

/// A test whose first arm has so many items before the jump at its end: the other arm reaches to where that jump goes.
fn plan_arms(
    items: &VecDeque<Item>,
    span: Span,
    test: CExpr,
    size: usize,
    end: Option<usize>,
) -> Plan
    requires room { size + 1 ≤ span.count }
    requires within { span.count ≤ length items.now.items }
    requires fits { span.position + 1 + span.count < 2 ^ 64 }
    ensures built { Plans span.position items.now.items (λ write. spec.arms_for write span.position test size end (take span.count items.now.items)) result }
    ensures taken { popped result ≡ 0 }
    ensures counted { steps result ≤ span.count }
{
    let Some(end) = end else {
        return unwritten(test);
    };
    let second = span.position + size + 2;
    if second <= end && end - second <= span.count - (size + 1) {
        Plan::TwoArms(test, size, end - second)
    } else {
        unwritten(test)
    }
}

/// A test that passes so many items, the last of which may be a jump over another arm.
fn plan_branch(
    layout: &Layout,
    items: &VecDeque<Item>,
    span: Span,
    test: CExpr,
    size: usize,
) -> Plan
    requires room { size ≤ span.count }
    requires within { span.count ≤ length items.now.items }
    requires fits { span.position + 1 + span.count < 2 ^ 64 }
    ensures built { Plans span.position items.now.items (λ write. spec.branch_for (layout_of layout.now) write span.position test size (take span.count items.now.items)) result }
    ensures taken { popped result ≡ 0 }
    ensures counted { steps result ≤ span.count }
{
    if size > 0 && layout.ends_arm(span.position + size) {
        plan_arms(items, span, test, size - 1, end_of_arm(at(items, size - 1)))
    } else {
        Plan::OneArm(test, size)
    }
}

/// A test that goes on behind it or at a later position.
fn plan_test(
    layout: &Layout,
    items: &VecDeque<Item>,
    span: Span,
    test: CExpr,
    on: usize,
    off: usize,
) -> Plan
    requires within { span.count ≤ length items.now.items }
    requires fits { span.position + 1 + span.count < 2 ^ 64 }
    ensures built { Plans span.position items.now.items (λ write. spec.test_for (layout_of layout.now) write span.position test on off (take span.count items.now.items)) result }
    ensures taken { popped result ≡ 0 }
    ensures counted { steps result ≤ span.count }
{
    let next = span.position + 1;
    if on == next && next <= off && off - next <= span.count {
        plan_branch(layout, items, span, test, off - next)
    } else {
        unwritten(test)
    }
}

/// A statement with the items that belong to it, where there is one.
#[tactic(auto, unfolding(crate::specs::Plans::whole))]
fn plan_whole(part: Option<Part>) -> Plan
    ensures { result ≡ whole part }
{
    match part {
        Some(part) => Plan::Whole(part),
        None => Plan::Unwritten,
    }
}

/// A value that picks one of the jumps behind it.
fn plan_switch(
    alloc: Global,
    layout: &Layout,
    items: &VecDeque<Item>,
    span: Span,
    value: CExpr,
    cases: &[Case],
    otherwise: usize,
) -> Result<Plan, AllocError>
    requires within { span.count ≤ length items.now.items }
    requires fits { span.position + 1 + span.count < 2 ^ 64 }
    ensures built { IfOk result (Plans span.position items.now.items (λ write. spec.switch_for (layout_of layout.now) span.position value cases.now otherwise (take span.count items.now.items))) }
    ensures taken { IfOk result (λ plan. popped plan ≡ 0) }
    ensures counted { IfOk result (λ plan. steps plan ≤ span.count) }
{
    let found = switch_for(alloc, layout, items, span, value, cases, otherwise)?;
    Ok(plan_whole(found))
}

/// An item that begins no loop.
fn plan_plain(
    alloc: Global,
    layout: &Layout,
    items: &VecDeque<Item>,
    span: Span,
    item: Item,
) -> Result<Plan, AllocError>
    requires within { span.count ≤ length items.now.items }
    requires fits { span.position + 1 + span.count < 2 ^ 64 }
    ensures built { IfOk result (Plans span.position items.now.items (λ write. spec.plain_for (layout_of layout.now) write span.position item (take span.count items.now.items))) }
    ensures taken { IfOk result (λ plan. popped plan ≡ 0) }
    ensures counted { IfOk result (λ plan. steps plan ≤ span.count) }
{
    match item {
        Item::Branch(test, on, off) => Ok(plan_test(layout, items, span, test, on, off)),
        Item::Select(value, cases, otherwise) => {
            plan_switch(
                alloc,
                layout,
                items,
                span,
                value,
                cases.as_slice(),
                otherwise,
            )
        }
        item => Ok(plan_whole(alone(statement_of(alloc, layout, item)?))),
    }
}

/// A loop behind its test, where the items are those of one.
#[tactic(auto, unfolding(crate::specs::Plans::turns))]
fn plan_turns(
    layout: &Layout,
    items: &VecDeque<Item>,
    span: Span,
    size: usize,
    head: Head,
    on: usize,
    off: usize,
) -> Plan
    requires within { span.count ≤ length items.now.items }
    requires fits { span.position + 2 + span.count < 2 ^ 64 }
    ensures { result ≡ turns (spec.is_loop (layout_of layout.now) span.position size on off (take span.count items.now.items)) head size }
{
    if is_loop(layout, items, span, size, on, off) {
        Plan::Turns(head, size)
    } else {
        unwritten(head)
    }
}

/// A loop whose variable is set already, where the item behind that is its test.
#[tactic(auto, unfolding(crate::specs::Plans::loop_plan))]
fn plan_behind(
    layout: &Layout,
    items: &VecDeque<Item>,
    span: Span,
    size: usize,
    variable: CExpr,
    first: CExpr,
    item: Item,
) -> Plan
    requires within { span.count ≤ length items.now.items }
    requires fits { span.position + 2 + span.count < 2 ^ 64 }
    ensures { result ≡ loop_plan (layout_of layout.now) span.position size variable first item (take span.count items.now.items) }
{
    match item {
        Item::Branch(test, on, off) => {
            let head = Head {
                variable,
                first,
                test,
            };
            plan_turns(layout, items, span, size, head, on, off)
        }
        other => unwritten((other, variable, first)),
    }
}

/// A loop whose variable is first set by an item, with the test behind it, which is taken.
fn plan_head(
    layout: &Layout,
    items: &mut VecDeque<Item>,
    span: Span,
    size: usize,
    variable: CExpr,
    first: CExpr,
) -> Plan
    requires within { span.count ≤ length items.old.items }
    requires fits { span.position + 1 + span.count < 2 ^ 64 }
    ensures built { Plans span.position items.new.items (λ write. spec.head_for (layout_of layout.now) write span.position size variable first (take span.count items.old.items)) result }
    ensures ahead { Ahead items.old.items items.new.items result }
    ensures counted { popped result + steps result ≤ span.count }
{
    if span.count == 0 {
        return unwritten((variable, first));
    }
    let behind = Span {
        position: span.position,
        count: span.count - 1,
        turns: span.turns,
    };
    let Some(item) = items.pop_front() else {
        return unwritten((variable, first));
    };
    plan_behind(layout, items, behind, size, variable, first, item)
}

/// A loop whose variable is first set by an item, with the test behind the turn, or at once behind that.
fn plan_set(
    layout: &Layout,
    items: &mut VecDeque<Item>,
    span: Span,
    size: usize,
    variable: CExpr,
    first: CExpr,
) -> Plan
    requires within { span.count ≤ length items.old.items }
    requires fits { span.position + 1 + span.count < 2 ^ 64 }
    ensures built { Plans span.position items.new.items (λ write. spec.loop_for (layout_of layout.now) write span.position size (item.Assign variable first) (take span.count items.old.items)) result }
    ensures ahead { Ahead items.old.items items.new.items result }
    ensures counted { popped result + steps result ≤ span.count }
{
    if is_tested_behind(layout, items, span, size) {
        Plan::Once(variable, first, size)
    } else {
        plan_head(layout, items, span, size, variable, first)
    }
}

/// A loop that begins at an item.
fn plan_loop(
    layout: &Layout,
    items: &mut VecDeque<Item>,
    span: Span,
    size: usize,
    item: Item,
) -> Plan
    requires within { span.count ≤ length items.old.items }
    requires fits { span.position + 1 + span.count < 2 ^ 64 }
    ensures built { Plans span.position items.new.items (λ write. spec.loop_for (layout_of layout.now) write span.position size item (take span.count items.old.items)) result }
    ensures ahead { Ahead items.old.items items.new.items result }
    ensures counted { popped result + steps result ≤ span.count }
{
    match item {
        Item::Assign(variable, first) => plan_set(layout, items, span, size, variable, first),
        other => unwritten(other),
    }
}

/// An item with those behind it.
pub(crate) fn plan_part(
    alloc: Global,
    layout: &Layout,
    items: &mut VecDeque<Item>,
    span: Span,
    item: Item,
) -> Result<Plan, AllocError>
    requires within { span.count ≤ length items.old.items }
    requires fits { span.position + 1 + span.count < 2 ^ 64 }
    ensures built { IfOk result (Plans span.position items.new.items (λ write. spec.part_for (layout_of layout.now) write ((layout_of layout.now).loop span.position) span.position item (take span.count items.old.items))) }
    ensures ahead { IfOk result (Ahead items.old.items items.new.items) }
    ensures counted { IfOk result (λ plan. popped plan + steps plan ≤ span.count) }
{
    match layout.turn(span.position) {
        Some(size) => Ok(plan_loop(layout, items, span, size, item)),
        None => plan_plain(alloc, layout, items, span, item),
    }
}
