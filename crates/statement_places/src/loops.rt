//! What is known of the loops of a unit at the place of a statement. Section 11.10.

ghost use Rattle.std.specs.Prelude.{◌≡◌, IfOk};
ghost use Rattle.statement_places.specs.StatementSizes as spec;
ghost use Rattle.statement_places.specs.StatementSizes.{free_in, ended_in, is_do_at, turn_size_in, turn_sizes_in};

use crate::sums::add;
use f_tree::{Body, Stmt};
use open_loops::LoopPlace;
use std::alloc::AllocError;

/// The first temporary that is free at a statement.
#[tactic(auto, using(std::proofs::lemmas::Option::gets), unfolding(crate::specs::StatementSizes::free_in, crate::specs::StatementSizes::free_there))]
pub(crate) fn free_at(loops: &[LoopPlace], place: usize) -> usize
    ensures { result ≡ free_in loops.now place }
{
    match loops.get(place) {
        Some(known) => known.free,
        None => 0,
    }
}

/// The places of the DO and DO WHILE statements whose loops end with a statement.
#[tactic(auto, using(std::proofs::lemmas::Option::gets), unfolding(crate::specs::StatementSizes::ended_in, crate::specs::StatementSizes::ended_there))]
pub(crate) fn ended_at(loops: &[LoopPlace], place: usize) -> &[usize]
    ensures { result.now ≡ ended_in loops.now place }
{
    match loops.get(place) {
        Some(known) => known.ended.as_slice(),
        None => &[],
    }
}

/// Whether a statement is a DO, and no DO WHILE.
#[tactic(auto, unfolding(crate::specs::StatementSizes::is_do, f_tree::specs::Folds::layer_of))]
fn is_do(body: &Body) -> bool
    ensures { result ≡ spec.is_do body.now }
{
    match body {
        Body::Do(_, _) => true,
        _ => false,
    }
}

/// Whether the statement at a place is a DO, and no DO WHILE.
#[tactic(auto, using(std::proofs::lemmas::Option::gets), unfolding(crate::specs::StatementSizes::is_do_at, crate::specs::StatementSizes::is_do_there))]
pub(crate) fn is_counted(statements: &[Stmt], place: usize) -> bool
    ensures { result ≡ is_do_at statements.now place }
{
    match statements.get(place) {
        Some(statement) => is_do(&statement.body),
        None => false,
    }
}

/// How many steps a loop has behind its terminal statement: the next value of its variable and the way back, or the way back alone.
#[tactic(auto, unfolding(crate::specs::StatementSizes::turn_size_in))]
pub(crate) fn turn_size(statements: &[Stmt], first: usize) -> usize
    ensures { result ≡ turn_size_in statements.now first }
{
    if is_counted(statements, first) { 2 } else { 1 }
}

/// How many steps some loops have behind their terminal statement.
pub(crate) fn turn_sizes(statements: &[Stmt], firsts: &[usize]) -> Result<usize, AllocError>
    ensures { IfOk result (λ n. n ≡ turn_sizes_in statements.now firsts.now) }
{
    let mut sum = 0;
    for first in firsts {
        sum = add(sum, turn_size(statements, *first))?;
    }
    Ok(sum)
}
