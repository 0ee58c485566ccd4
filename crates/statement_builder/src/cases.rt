//! The cases of a `switch`: the items behind it are their jumps. C89, 3.6.4.2.

ghost use Rattle.std.specs.List.{list_any};
ghost use Rattle.std.specs.Prelude.{◌≡◌, ◌+◌, ◌<◌, ◌≤◌, ◌^◌, IfOk, Some, length, option_copied, take};
ghost use Rattle.c_structure.specs.Statements.{case_by};
ghost use Rattle.c_structure.specs.Statements as statements;
ghost use Rattle.named_items.specs.declared.item.Item.TheVariants as item;
ghost use Rattle.named_items.specs.Layouts.{layout_of};
ghost use Rattle.named_items.specs.Structured as spec;
ghost use Rattle.statement_builder.specs.SwitchCases.{case_at, numbers_of};
ghost use Rattle.statement_builder.specs.SwitchCases as switch;

use crate::loop_tests::at;
use crate::parts::{nothing, switch_by};
use crate::span::Span;
use c_tree::expression::CExpr;
use c_tree::statement::CCase;
use named_items::{Case, Item, Layout, Part};
use plain_data::Items;
use std::alloc::{AllocError, Global};
use std::collections::VecDeque;

/// A case with the label to which its jump goes, where there is one.
#[tactic(auto, unfolding(c_structure::specs::Statements::case_by))]
fn labelled_case(
    alloc: Global,
    number: i32,
    label: Option<&[u8]>,
) -> Result<Option<CCase>, AllocError>
    ensures { IfOk result (λ found. found ≡ case_by number (option_copied label.entry)) }
{
    match label {
        Some(label) => {
            let label = Items::from_slice(alloc, label)?;
            Ok(Some(CCase { number, label }))
        }
        None => Ok(None),
    }
}

/// The case that a jump at a position is that of, where no label stands before it.
#[tactic(auto, unfolding(named_items::specs::Structured::case_for))]
fn jump_case(
    alloc: Global,
    layout: &Layout,
    position: usize,
    case: Case,
    target: usize,
) -> Result<Option<CCase>, AllocError>
    ensures { IfOk result (λ found. found ≡ spec.case_for (layout_of layout.now) position case (item.Jump target)) }
{
    if case.position == position && layout.label(position).is_none() {
        labelled_case(alloc, case.number, layout.label(target))
    } else {
        Ok(None)
    }
}

/// The case that the item at a position is the jump of, where there is one.
#[tactic(auto, unfolding(named_items::specs::Structured::case_for, crate::specs::SwitchCases::case_at))]
fn case_for(
    alloc: Global,
    layout: &Layout,
    position: usize,
    case: Case,
    item: Option<&Item>,
) -> Result<Option<CCase>, AllocError>
    ensures { IfOk result (λ found. found ≡ case_at (layout_of layout.now) position case (option_copied item.entry)) }
{
    match item {
        Some(Item::Jump(target)) => jump_case(alloc, layout, position, case, *target),
        _ => Ok(None),
    }
}

/// The cases whose jumps are the first items of a span, in their order.
fn cases_for(
    alloc: Global,
    layout: &Layout,
    items: &VecDeque<Item>,
    span: Span,
    cases: &[Case],
) -> Result<Option<Items<CCase>>, AllocError>
    requires room { length cases.now ≤ span.count }
    requires within { span.count ≤ length items.now.items }
    requires fits { span.position + 1 + span.count < 2 ^ 64 }
    ensures { IfOk result (λ found. found ≡ spec.cases_for (layout_of layout.now) (span.position + 1) cases.now (take span.count items.now.items)) }
{
    let mut found = Vec::new(alloc);
    let mut index = 0;
    while index < cases.len() {
        let position = span.position + 1 + index;
        match case_for(alloc, layout, position, cases[index], at(items, index))? {
            Some(case) => found.push(case)?,
            None => return Ok(None),
        }
        index += 1;
    }
    Ok(Some(Items::from_vec(found)))
}

/// Whether a number has no sign.
#[tactic(auto, unfolding(c_structure::specs::Statements::is_case_number))]
fn is_case_number(number: i32) -> bool
    ensures { result ≡ statements.is_case_number number }
{
    number >= 0
}

/// Whether a case has a number.
#[tactic(auto, unfolding(crate::specs::SwitchCases::has_number))]
fn has_number(number: i32, case: &Case) -> bool
    ensures { result ≡ switch.has_number number case.now }
{
    number == case.number
}

/// Whether one of some cases has a number.
fn stands_among(number: i32, cases: &[Case]) -> bool
    ensures { result ≡ list_any (switch.has_number number) cases.now }
{
    cases.iter().any(|case| has_number(number, case))
}

/// Whether the number of a case has no sign, and none of those behind it has it.
#[tactic(auto, unfolding(crate::specs::SwitchCases::is_own_number))]
fn is_its_own(case: Case, later: &[Case]) -> bool
    ensures { result ≡ switch.is_own_number case.number later.now }
{
    is_case_number(case.number) && !stands_among(case.number, later)
}

/// Whether the numbers of cases have no sign, and none stands twice.
fn are_case_numbers(cases: &[Case]) -> bool
    ensures { result ≡ statements.are_case_numbers (numbers_of cases.now) }
{
    let mut passed = 0;
    while passed < cases.len() {
        if !is_its_own(cases[passed], &cases[passed + 1..]) {
            return false;
        }
        passed += 1;
    }
    true
}

/// A value that picks one of the jumps that stand at once behind it.
pub(crate) fn switch_for(
    alloc: Global,
    layout: &Layout,
    items: &VecDeque<Item>,
    span: Span,
    value: CExpr,
    cases: &[Case],
    otherwise: usize,
) -> Result<Option<Part>, AllocError>
    requires within { span.count ≤ length items.now.items }
    requires fits { span.position + 1 + span.count < 2 ^ 64 }
    ensures { IfOk result (λ part. part ≡ spec.switch_for (layout_of layout.now) span.position value cases.now otherwise (take span.count items.now.items)) }
{
    if cases.len() > span.count
        || otherwise != span.position + 1 + cases.len()
        || !are_case_numbers(cases)
    {
        return Ok(nothing(value));
    }
    let found = cases_for(alloc, layout, items, span, cases)?;
    Ok(switch_by(value, cases.len(), found))
}
