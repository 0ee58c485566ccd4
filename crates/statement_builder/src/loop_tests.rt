//! Whether the items behind the first of a loop are those of a loop, whether its test stands behind the turn, and where the jump at the end of an arm goes.

ghost use Rattle.std.specs.Prelude.{◌≡◌, ◌+◌, ◌<◌, ◌≤◌, ◌^◌, option_copied, length, slice_get, take};
ghost use Rattle.named_items.specs.Layouts.{layout_of};
ghost use Rattle.named_items.specs.Structured as spec;

use crate::span::Span;
use named_items::{Item, Layout};
use std::collections::VecDeque;

/// The item at an index, where there is one.
pub(crate) fn at(items: &VecDeque<Item>, index: usize) -> Option<&Item>
    ensures { option_copied result ≡ slice_get items.now.items index }
{
    items.get(index)
}

/// Where the jump at the end of an arm goes.
#[tactic(auto, unfolding(named_items::specs::Structured::end_of_arm))]
pub(crate) fn end_of_arm(item: Option<&Item>) -> Option<usize>
    ensures { result ≡ spec.end_of_arm (option_copied item.entry) }
{
    match item {
        Some(Item::Jump(position)) => Some(*position),
        _ => None,
    }
}

/// Whether an item jumps back to a position.
#[tactic(auto, unfolding(named_items::specs::Structured::goes_back))]
fn goes_back(position: usize, item: Option<&Item>) -> bool
    ensures { result ≡ spec.goes_back position (option_copied item.entry) }
{
    match item {
        Some(Item::Jump(target)) => *target == position,
        _ => false,
    }
}

/// Whether no label stands before the test of a loop, its growth and its jump back.
#[tactic(auto, unfolding(named_items::specs::Structured::is_unmarked))]
fn is_unmarked(layout: &Layout, position: usize, size: usize) -> bool
    requires { position + size + 3 < 2 ^ 64 }
    ensures { result ≡ spec.is_unmarked (layout_of layout.now) position size }
{
    layout.label(position + 1).is_none()
        && layout.label(position + size + 2).is_none()
        && layout.label(position + size + 3).is_none()
}

/// Whether an item is a test behind a turn of so many items, at once behind the one at a position, and no label stands before it.
#[tactic(auto, unfolding(named_items::specs::Structured::tests_turn))]
fn tests_turn(layout: &Layout, position: usize, size: usize, item: Option<&Item>) -> bool
    requires { position + size + 2 < 2 ^ 64 }
    ensures { result ≡ spec.tests_turn (layout_of layout.now) position size (option_copied item.entry) }
{
    match item {
        Some(Item::Branch(_, on, off)) => {
            *on == position + 1
                && *off == position + size + 2
                && layout.label(position + size + 1).is_none()
        }
        _ => false,
    }
}

/// Whether the test of a loop stands behind so many items of its turn.
pub(crate) fn is_tested_behind(
    layout: &Layout,
    items: &VecDeque<Item>,
    span: Span,
    size: usize,
) -> bool
    requires within { span.count ≤ length items.now.items }
    requires fits { span.position + 1 + span.count < 2 ^ 64 }
    ensures { result ≡ spec.tests_turn (layout_of layout.now) span.position size (slice_get (take span.count items.now.items) size) }
{
    size < span.count && tests_turn(layout, span.position, size, at(items, size))
}

/// Whether a test stands at once behind the first item, then so many items of a turn, one more and the jump back, and no label but in the turn.
#[tactic(auto, unfolding(named_items::specs::Structured::is_loop))]
pub(crate) fn is_loop(
    layout: &Layout,
    items: &VecDeque<Item>,
    span: Span,
    size: usize,
    on: usize,
    off: usize,
) -> bool
    requires within { span.count ≤ length items.now.items }
    requires fits { span.position + 2 + span.count < 2 ^ 64 }
    ensures { result ≡ spec.is_loop (layout_of layout.now) span.position size on off (take span.count items.now.items) }
{
    if span.count < 2 || span.count - 2 < size {
        return false;
    }
    on == span.position + 2
        && off == span.position + size + 4
        && goes_back(span.position + 1, at(items, size + 1))
        && is_unmarked(layout, span.position, size)
}
