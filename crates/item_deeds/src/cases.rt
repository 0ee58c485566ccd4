//! Where a `switch` goes on (C89, 3.6.4.2).

ghost use Rattle.std.specs.Prelude.{◌≡◌, pos, ◌+ℤ◌, ◌<ℤ◌, map, MatchOption};
ghost use Rattle.c_tree.specs.Steps as steps;
ghost use Rattle.linked_terms.specs.LinkedItems.{case_of, cases_of, cases_on};

use linked_terms::{LinkedCase, LinkedCases};

/// How far a number is behind a first, where it is not before it.
#[tactic(auto, using(crate::proofs::CaseLaws::case_laws))]
fn place_behind(first: i32, number: i32) -> Option<u32>
    ensures { MatchOption result (number <ℤ first) (λ place. number ≡ first +ℤ pos place) }
{
    if number < first {
        None
    } else {
        Some(number.abs_diff(first))
    }
}

/// The position of a number among cases whose numbers grow by one from a first, and so do the positions of their jumps. Nothing is gone over.
#[tactic(auto, using(crate::proofs::CaseLaws::case_laws))]
fn consecutive_position(
    number: i32,
    first: i32,
    position: u32,
    count: u32,
    otherwise: usize,
) -> usize
    ensures { result ≡ steps.case_position number (cases_on first position count) otherwise }
{
    match place_behind(first, number) {
        Some(place) if place < count => position as usize + place as usize,
        _ => otherwise,
    }
}

/// The position of a number among any cases, which are gone over in order.
fn listed_position(number: i32, cases: &[LinkedCase], otherwise: usize) -> usize
    ensures { result ≡ steps.case_position number (map case_of cases.now) otherwise }
{
    for case in cases {
        if case.number == number {
            return case.position;
        }
    }
    otherwise
}

/// Where a `switch` goes on.
pub(crate) fn case_position(number: i32, cases: &LinkedCases, otherwise: usize) -> usize
    ensures { result ≡ steps.case_position number (cases_of cases.now) otherwise }
{
    match cases {
        LinkedCases::Consecutive {
            first,
            position,
            count,
        } => consecutive_position(number, *first, *position, *count, otherwise),
        LinkedCases::Listed(list) => listed_position(number, list.as_slice(), otherwise),
    }
}
