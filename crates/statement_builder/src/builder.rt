//! Statements from items: the items are taken in order, each once, and a block or the turn of a loop is one call deeper.

ghost use Rattle.std.specs.Prelude.{◌≡◌, ◌+◌, ◌<◌, ◌≤◌, ◌^◌, length, take, drop, IfOk, Some, slice_get};
ghost use Rattle.named_items.specs.Layouts.{layout_of};
ghost use Rattle.named_items.specs.Structured as spec;
ghost use Rattle.statement_builder.specs.Plans.{Carries, carried, steps};
ghost use Rattle.statement_builder.specs.Taking.{Leaves, Takes};

use crate::growth::next_for;
use crate::parts::{do_by, for_by, if_by, if_else_by, marked, nothing, pass, passed, test_in};
use crate::plan::Plan;
use crate::planning::plan_part;
use crate::span::Span;
use c_tree::expression::CExpr;
use c_tree::statement::CStmt;
use named_items::{Head, Item, Layout, Part};
use plain_data::Items;
use std::alloc::{AllocError, Global};
use std::collections::VecDeque;

/// The structured statements of flat items; none where they have none.
///
/// # Errors
///
/// Want of memory.
pub fn build_statements(
    alloc: Global,
    layout: &Layout,
    items: Vec<Item>,
) -> Result<Option<Items<CStmt>>, AllocError>
    ensures { IfOk result (λ body. body ≡ spec.structured (layout_of layout.now) (length items.items) 0 items.items) }
{
    let count = items.as_slice().len();
    let mut ahead = VecDeque::from_vec(items);
    let span = Span {
        position: 0,
        count,
        turns: count,
    };
    statements(alloc, layout, &mut ahead, span)
}

/// The statements of the items of a span, which are taken.
#[cycle(statements)]
fn statements(
    alloc: Global,
    layout: &Layout,
    items: &mut VecDeque<Item>,
    span: Span,
) -> Result<Option<Items<CStmt>>, AllocError>
    requires within { span.count ≤ length items.old.items }
    requires fits { span.position + span.count < 2 ^ 64 }
    ensures written { IfOk result (λ r. r ≡ spec.structured (layout_of layout.now) span.turns span.position (take span.count items.old.items)) }
    ensures rest { IfOk result (Leaves items.old.items items.new.items span.count) }
{
    let mut written = Vec::new(alloc);
    let mut left = span;
    while left.count > 0 {
        if left.turns == 0 {
            return Ok(None);
        }
        let Some(item) = items.pop_front() else {
            return Ok(None);
        };
        left.count -= 1;
        left.turns -= 1;
        match part_at(alloc, layout, items, left, item)? {
            Some(part) => {
                left.position += 1 + part.taken;
                left.count -= part.taken;
                written.push(part.statement)?;
            }
            None => return Ok(None),
        }
    }
    Ok(Some(Items::from_vec(written)))
}

/// An item with those that belong to it, which are taken, and with its label.
#[cycle(statements)]
fn part_at(
    alloc: Global,
    layout: &Layout,
    items: &mut VecDeque<Item>,
    span: Span,
    item: Item,
) -> Result<Option<Part>, AllocError>
    requires within { span.count ≤ length items.old.items }
    requires fits { span.position + 1 + span.count < 2 ^ 64 }
    ensures built { IfOk result (λ r. r ≡ spec.part_at (layout_of layout.now) (spec.structured (layout_of layout.now) span.turns) span.position item (take span.count items.old.items)) }
    ensures rest { IfOk result (Takes items.old.items items.new.items span.count) }
{
    let plan = plan_part(alloc, layout, items, span, item)?;
    let part = carry(alloc, layout, items, span, plan)?;
    marked(alloc, layout.label(span.position), part)
}

/// What comes of a plan, with the items that belong to it taken.
#[cycle(statements)]
fn carry(
    alloc: Global,
    layout: &Layout,
    items: &mut VecDeque<Item>,
    span: Span,
    plan: Plan,
) -> Result<Option<Part>, AllocError>
    requires room { steps plan ≤ length items.old.items }
    requires fits { span.position + 1 + steps plan < 2 ^ 64 }
    ensures built { IfOk result (λ r. r ≡ carried (spec.structured (layout_of layout.now) span.turns) span.position plan items.old.items) }
    ensures rest { IfOk result (Carries items.old.items items.new.items plan) }
{
    match plan {
        Plan::Unwritten => Ok(None),
        Plan::Whole(part) => {
            pass(items, part.taken);
            Ok(Some(part))
        }
        Plan::OneArm(test, size) => one_arm(alloc, layout, items, span, test, size),
        Plan::TwoArms(test, size, other) => {
            two_arms(alloc, layout, items, span, test, size, other)
        }
        Plan::Turns(head, size) => turns_for(alloc, layout, items, span, head, size),
        Plan::Once(variable, first, size) => {
            once_for(alloc, layout, items, span, variable, first, size)
        }
    }
}

/// A test that passes so many items.
#[cycle(statements)]
fn one_arm(
    alloc: Global,
    layout: &Layout,
    items: &mut VecDeque<Item>,
    span: Span,
    test: CExpr,
    size: usize,
) -> Result<Option<Part>, AllocError>
    requires room { size ≤ length items.old.items }
    requires fits { span.position + 1 + size < 2 ^ 64 }
    ensures built { IfOk result (λ r. r ≡ spec.one_arm (spec.structured (layout_of layout.now) span.turns) span.position test size items.old.items) }
    ensures rest { IfOk result (Leaves items.old.items items.new.items size) }
{
    let arm = Span {
        position: span.position + 1,
        count: size,
        turns: span.turns,
    };
    let first = statements(alloc, layout, items, arm)?;
    Ok(if_by(test, size, first))
}

/// A test with two arms of so many items, and the jump between them.
#[cycle(statements)]
fn two_arms(
    alloc: Global,
    layout: &Layout,
    items: &mut VecDeque<Item>,
    span: Span,
    test: CExpr,
    size: usize,
    other: usize,
) -> Result<Option<Part>, AllocError>
    requires room { size + 1 + other ≤ length items.old.items }
    requires fits { span.position + 1 + (size + 1 + other) < 2 ^ 64 }
    ensures built { IfOk result (λ r. r ≡ spec.two_arms (spec.structured (layout_of layout.now) span.turns) span.position test size other items.old.items) }
    ensures rest { IfOk result (Leaves items.old.items items.new.items (size + 1 + other)) }
{
    let arm = Span {
        position: span.position + 1,
        count: size,
        turns: span.turns,
    };
    let Some(first) = statements(alloc, layout, items, arm)? else {
        return Ok(nothing(test));
    };
    let arm = Span {
        position: span.position + size + 2,
        count: other,
        turns: span.turns,
    };
    let second = second_arm(alloc, layout, items, arm)?;
    Ok(if_else_by(test, size + 1 + other, first, second))
}

/// The second arm, behind the jump at the end of the first.
#[cycle(statements)]
fn second_arm(
    alloc: Global,
    layout: &Layout,
    items: &mut VecDeque<Item>,
    arm: Span,
) -> Result<Option<Items<CStmt>>, AllocError>
    requires within { 1 + arm.count ≤ length items.old.items }
    requires fits { arm.position + arm.count < 2 ^ 64 }
    ensures written { IfOk result (λ r. r ≡ spec.structured (layout_of layout.now) arm.turns arm.position (take arm.count (drop 1 items.old.items))) }
    ensures rest { IfOk result (Leaves items.old.items items.new.items (1 + arm.count)) }
{
    passed(items.pop_front());
    statements(alloc, layout, items, arm)
}

/// A loop with its head, behind the test: so many items of a turn, the growth and the jump back.
#[cycle(statements)]
fn turns_for(
    alloc: Global,
    layout: &Layout,
    items: &mut VecDeque<Item>,
    span: Span,
    head: Head,
    size: usize,
) -> Result<Option<Part>, AllocError>
    requires room { size + 2 ≤ length items.old.items }
    requires fits { span.position + 1 + (size + 2) < 2 ^ 64 }
    ensures built { IfOk result (λ r. r ≡ spec.turns_for (spec.structured (layout_of layout.now) span.turns) span.position size head items.old.items) }
    ensures rest { IfOk result (Leaves items.old.items items.new.items (size + 2)) }
{
    let arm = Span {
        position: span.position + 2,
        count: size,
        turns: span.turns,
    };
    let Some(turn) = statements(alloc, layout, items, arm)? else {
        return Ok(nothing(head));
    };
    Ok(closed(items, head, size, turn))
}

/// A loop whose turn is written: its growth and its jump back are taken.
fn closed(items: &mut VecDeque<Item>, head: Head, size: usize, turn: Items<CStmt>) -> Option<Part>
    requires { size + 3 < 2 ^ 64 }
    ensures built { result ≡ spec.for_by head size (spec.next_for head.variable (slice_get items.old.items 0)) (Some turn) }
    ensures rest { items.new.items ≡ drop 2 items.old.items }
{
    let next = next_for(&head.variable, items.pop_front());
    passed(items.pop_front());
    for_by(head, size, next, turn)
}

/// A loop whose variable is first set, behind that: so many items of a turn and the test.
#[cycle(statements)]
fn once_for(
    alloc: Global,
    layout: &Layout,
    items: &mut VecDeque<Item>,
    span: Span,
    variable: CExpr,
    first: CExpr,
    size: usize,
) -> Result<Option<Part>, AllocError>
    requires room { size + 1 ≤ length items.old.items }
    requires fits { span.position + 1 + (size + 1) < 2 ^ 64 }
    ensures built { IfOk result (λ r. r ≡ spec.do_for (spec.structured (layout_of layout.now) span.turns) span.position size variable first items.old.items) }
    ensures rest { IfOk result (Leaves items.old.items items.new.items (size + 1)) }
{
    let arm = Span {
        position: span.position + 1,
        count: size,
        turns: span.turns,
    };
    let Some(turn) = statements(alloc, layout, items, arm)? else {
        return Ok(nothing((variable, first)));
    };
    tested(alloc, items, variable, first, size, turn)
}

/// A loop whose turn is written: its test is taken.
fn tested(
    alloc: Global,
    items: &mut VecDeque<Item>,
    variable: CExpr,
    first: CExpr,
    size: usize,
    turn: Items<CStmt>,
) -> Result<Option<Part>, AllocError>
    requires { size + 1 < 2 ^ 64 }
    ensures built { IfOk result (λ r. r ≡ spec.do_by variable first size (Some turn) (spec.test_in (slice_get items.old.items 0))) }
    ensures rest { items.new.items ≡ drop 1 items.old.items }
{
    let test = test_in(items.pop_front());
    do_by(alloc, variable, first, size, turn, test)
}
