//! Jumps to labels, and the cases of a `switch` (C89, 3.6.4.2 and 3.6.6.1).

ghost use Rattle.std.specs.Prelude.{◌≡◌, ◌+◌, [], ◌∷◌, map, IfOk, IfSome};
ghost use Rattle.c_tree.specs.Drafts.{Scope};
ghost use Rattle.c_tree.specs.FlatForm as form;
ghost use Rattle.first_names.specs.FirstNames.{first_of};
ghost use Rattle.linked_terms.specs.LinkedItems.{case_of, cases_of};
ghost use Rattle.flat_linker.specs.Parts.{jumps};
ghost use Rattle.flat_linker.specs.CaseNumbers.{numbered_from};
ghost use Rattle.flat_linker.specs.PutItems.{PutsBody};

use crate::items::put;
use crate::sizes::plus;
use crate::written::Written;
use c_tree::statement::CCase;
use expression_linker::LinkFail;
use first_names::FirstNames;
use linked_terms::{LinkedCase, LinkedCases, LinkedItem};
use plain_data::Items;
use std::alloc::{AllocError, Global};

/// Cases whose jumps stand from a position on, one by one.
#[tactic(auto, using(std::proofs::lemmas::Grind::common_steps))]
fn listed_at(
    alloc: Global,
    position: usize,
    cases: &[CCase],
) -> Result<Items<LinkedCase>, AllocError>
    ensures { IfOk result (λ made. map case_of made ≡ form.cases_from position cases.now) }
{
    let mut made = Items::new(alloc);
    let mut position = position;
    for case in cases {
        let number = case.number;
        made.push(LinkedCase { number, position })?;
        position = plus(position, 1)?;
    }
    Ok(made)
}

/// Whether the numbers of cases grow by one from a first.
fn grow_by_one(first: i32, cases: &[CCase]) -> bool
    ensures { result ≡ numbered_from first cases.now }
{
    let mut wanted = i64::from(first);
    for case in cases {
        let number = i64::from(case.number);
        if number != wanted {
            return false;
        }
        wanted = number + 1;
    }
    true
}

/// Cases whose jumps stand from a position on, by the first and their count, where their numbers grow by one and 32 bits tell the position and
/// the count.
#[tactic(auto, using(crate::proofs::NumberedCases::numbered_laws))]
fn consecutive_at(position: usize, cases: &[CCase]) -> Option<LinkedCases>
    ensures { IfSome result (λ made. cases_of made ≡ form.cases_from position cases.now) }
{
    let first = cases.first()?.number;
    if !grow_by_one(first, cases) {
        return None;
    }
    let position = u32::try_from(position).ok()?;
    let count = u32::try_from(cases.len()).ok()?;
    Some(LinkedCases::Consecutive {
        first,
        position,
        count,
    })
}

/// Cases whose jumps stand from a position on.
pub(crate) fn cases_at(
    alloc: Global,
    position: usize,
    cases: &[CCase],
) -> Result<LinkedCases, AllocError>
    ensures { IfOk result (λ made. cases_of made ≡ form.cases_from position cases.now) }
{
    match consecutive_at(position, cases) {
        Some(made) => Ok(made),
        None => Ok(LinkedCases::Listed(listed_at(alloc, position, cases)?)),
    }
}

/// Puts a jump to a label.
pub(crate) fn put_jump(
    labels: &FirstNames<'_, usize>,
    out: &mut Written,
    label: &[u8],
) -> Result<(), LinkFail>
    ensures { (scope : Scope) → PutsBody result (form.jump label.now) scope (first_of labels.now) out.old out.new }
{
    match labels.get(label) {
        Some(position) => put(out, LinkedItem::Jump(position)),
        None => Err(LinkFail::Unknown),
    }
}

/// Puts the jumps of cases.
#[tactic(auto, using(std::proofs::lemmas::Grind::common_steps))]
pub(crate) fn put_case_jumps(
    labels: &FirstNames<'_, usize>,
    out: &mut Written,
    cases: &[CCase],
) -> Result<(), LinkFail>
    ensures { (scope : Scope) → PutsBody result (jumps cases.now) scope (first_of labels.now) out.old out.new }
{
    for case in cases {
        put_jump(labels, out, case.label.as_slice())?;
    }
    Ok(())
}
