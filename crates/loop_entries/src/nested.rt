//! Whether loops are nested: each has its terminal statement behind it, and one that begins in the range of another ends there. Section 11.10 and
//! MIL-STD-1753.

ghost use Rattle.std.specs.Prelude.{◌≡◌, ◌&&◌, not, IfOk, length, option_copied, slice_get};
ghost use Rattle.std.specs.List.{list_any};
ghost use Rattle.f_tree.specs.Facts.{ProgramUnit};
ghost use Rattle.f_tree.specs.Lines.{Naming};
ghost use Rattle.f_tree.specs.Nests.{is_no_loop, ends_at, ends_by, each_ends as each_ends_read, each_contained, ranges_of};
ghost use Rattle.f_tree.specs.declared.statements.Stmt as stmt;
ghost use Rattle.plain_forms.specs.PlainUnits.{loops_are_nested};
ghost use Rattle.loop_entries.specs.LoopRanges.{terminal_by, terminals_of};
ghost use Rattle.loop_entries.specs.ReadLines.{IsReadAs, loop_in, loop_there};

use f_tree::{Body, Stmt};
use loop_ranges::crossing::add_range_rows;
use std::alloc::{AllocError, Global};

/// Whether a statement begins a loop: a DO or a DO WHILE does.
#[tactic(auto, using(crate::proofs::LineLemmas::loop_forms))]
fn begins_loop(body: &Body) -> bool
    ensures { result ≡ not (is_no_loop (loop_in body.now)) }
{
    match body {
        Body::Do(..) | Body::DoWhile(..) => true,
        _ => false,
    }
}

/// Whether one of some statements begins a loop.
pub(crate) fn has_loops(statements: &[Stmt]) -> bool
    ensures { result ≡ list_any (λ (s : stmt.Stmt). not (is_no_loop (loop_in s.body))) statements.now }
{
    statements
        .iter()
        .any(|statement| begins_loop(&statement.body))
}

/// The statement at a place, if there is one.
fn statement_at(statements: &[Stmt], place: usize) -> Option<&Stmt>
    ensures { option_copied result ≡ slice_get statements.now place }
{
    statements.get(place)
}

/// Whether the statement at a place begins a loop.
fn begins_loop_at(statements: &[Stmt], place: usize) -> bool
    ensures { result ≡ not (is_no_loop (loop_there (slice_get statements.now place))) }
{
    match statement_at(statements, place) {
        Some(statement) => begins_loop(&statement.body),
        None => false,
    }
}

/// Whether the loop that begins at a place has its terminal statement behind it, which begins no loop.
fn ends_behind(statements: &[Stmt], place: usize, end: Option<usize>) -> bool
    ensures { (p : ProgramUnit) (names : Naming) → IsReadAs p names statements.now → result ≡ ends_at p place end }
{
    match end {
        Some(last) => place < last && !begins_loop_at(statements, last),
        None => false,
    }
}

/// The same for a statement that may begin no loop.
fn ends_well(statements: &[Stmt], body: &Body, place: usize, end: Option<usize>) -> bool
    ensures { (p : ProgramUnit) (names : Naming) → IsReadAs p names statements.now → end ≡ terminal_by p place (loop_in body.now)
        → result ≡ ends_by p place (loop_in body.now) }
{
    !begins_loop(body) || ends_behind(statements, place, end)
}

/// Whether each loop of some statements has its terminal statement, given where the loop ends that each statement begins.
fn each_ends(statements: &[Stmt], ends: &[Option<usize>]) -> bool
    requires { length ends.now ≡ length statements.now }
    ensures { (p : ProgramUnit) (names : Naming) → IsReadAs p names statements.now → ends.now ≡ terminals_of p → result ≡ each_ends_read p 0 p.lines }
{
    for place in 0..statements.len() {
        if !ends_well(statements, &statements[place].body, place, ends[place]) {
            return false;
        }
    }
    true
}

/// Whether each loop that begins in the range of another ends there: no two ranges cross.
fn are_contained(
    alloc: Global,
    statements: &[Stmt],
    ends: &[Option<usize>],
) -> Result<bool, AllocError>
    requires { length ends.now ≡ length statements.now }
    ensures { IfOk result (λ contained. (p : ProgramUnit) (names : Naming) → IsReadAs p names statements.now → ends.now ≡ terminals_of p
        → contained ≡ each_contained (ranges_of p)) }
{
    let mut crossing = Vec::new(alloc);
    add_range_rows(alloc, &mut crossing, ends, statements)?;
    Ok(crossing.is_empty())
}

/// Whether the loops of some statements are nested, given where the loop ends that each statement begins. An error where memory ran out.
pub(crate) fn are_nested(
    alloc: Global,
    statements: &[Stmt],
    ends: &[Option<usize>],
) -> Result<bool, AllocError>
    requires { length ends.now ≡ length statements.now }
    ensures { IfOk result (λ nested. (p : ProgramUnit) (names : Naming) → IsReadAs p names statements.now → ends.now ≡ terminals_of p
        → nested ≡ loops_are_nested p) }
{
    if !each_ends(statements, ends) {
        return Ok(false);
    }
    are_contained(alloc, statements, ends)
}
