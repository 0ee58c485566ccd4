//! The classes of numbers, found by trees that are joined by rank. Section 17.1.

ghost use Rattle.std.specs.Prelude.{◌≡◌, ◌<◌, ◌≤◌, ◌+◌, ◌^◌, ◌++◌, ◌∷◌, [], List, ℕ, nat_abs, length, IfOk, IfSome, IfNone, pos, neg_ℤ, ◌+ℤ◌, ◌⊎◌, slice_set};
ghost use Rattle.std.specs.Bool.{OnTrue, OnFalse};
ghost use Rattle.offset_classes.specs.Standing.{Link, reach, AreBelow, AreContradictory, links_of, link_of};
ghost use Rattle.offset_classes.specs.Forest.{IsForest, IsSpread, IsSolving, IsAttached, AreSingle, ArePlaces, Rises, IsSolution, IsFirstToContradict, node_at};

use crate::nodes::{Equation, Node, Place, Solution};
use std::alloc::{AllocError, Global};

/// The root of the tree of a number, and how many units the number stands behind it.
fn find(nodes: &[Node], height: usize, number: usize) -> Place
    requires inside { number < length nodes.now }
    requires forest { IsForest nodes.now height }
    requires spread { IsSpread nodes.now (2 ^ 61) }
    ensures place { Rises nodes.now number result.offset result.root }
    ensures near { nat_abs result.offset ≤ 2 ^ 61 }
{
    let mut root = number;
    let mut offset = 0;
    while nodes[root].parent != root {
        let node = nodes[root];
        offset += node.offset;
        root = node.parent;
    }
    Place { root, offset }
}

/// Puts the tree of one root under another root, so many units behind it, which gets a rank.
fn put_under(nodes: &mut [Node], low: usize, high: usize, offset: i64, rank: usize)
    requires low_in { low < length nodes.old }
    requires high_in { high < length nodes.old }
    ensures { nodes.new
        ≡ slice_set (slice_set nodes.old low (record { parent = high; offset = offset; rank = (node_at nodes.old low).rank })) high
        (record (node_at nodes.old high) { rank = rank }) }
{
    let below = nodes[low];
    let above = nodes[high];
    nodes[low] = Node {
        parent: high,
        offset,
        rank: below.rank,
    };
    nodes[high] = Node {
        parent: above.parent,
        offset: above.offset,
        rank,
    };
}

/// Puts the tree of lower rank of two under the other one, where the root `other` begins so many units behind the root `one`.
fn join(nodes: &mut [Node], height: usize, one: usize, other: usize, offset: i64)
    requires one_in { one < length nodes.old }
    requires other_in { other < length nodes.old }
    requires apart { one ≡ other → ⊥ }
    requires forest { IsForest nodes.old height }
    requires room { height + 1 < 2 ^ 64 }
    requires near { nat_abs offset < 2 ^ 63 }
    ensures { IsAttached nodes.old nodes.new one other (neg_ℤ offset) height ⊎ IsAttached nodes.old nodes.new other one offset height }
{
    let rank = nodes[one].rank;
    let other_rank = nodes[other].rank;
    if rank < other_rank {
        put_under(nodes, one, other, -offset, other_rank);
    } else if rank == other_rank {
        put_under(nodes, other, one, offset, rank + 1);
    } else {
        put_under(nodes, other, one, offset, rank);
    }
}

/// How many units one root stands behind another one, by the places of two numbers and an equation between them.
fn between(one: i64, by: i64, other: i64) -> i64
    requires one_near { nat_abs one ≤ 2 ^ 61 }
    requires by_near { nat_abs by ≤ 2 ^ 61 }
    requires other_near { nat_abs other ≤ 2 ^ 61 }
    ensures value { result ≡ (one +ℤ by) +ℤ neg_ℤ other }
    ensures near { nat_abs result < 2 ^ 63 }
{
    one + by - other
}

/// Whether a distance is none.
fn is_none(offset: i64) -> bool
    ensures none { OnTrue result (offset ≡ pos 0) }
    ensures some { OnFalse result (offset ≡ pos 0 → ⊥) }
{
    offset == 0
}

/// Takes one more equation; false where it contradicts those before it.
fn tie(nodes: &mut [Node], height: usize, equation: Equation) -> bool
    requires one_in { equation.one < length nodes.old }
    requires other_in { equation.other < length nodes.old }
    requires forest { IsForest nodes.old height }
    requires spread { IsSpread nodes.old (2 ^ 61) }
    requires room { height + 1 < 2 ^ 64 }
    requires near { nat_abs equation.by ≤ 2 ^ 61 }
    ensures tied { (ls : List (Link ℕ)) → AreBelow (length nodes.old) ls → IsSolving ls nodes.old height
        → OnTrue result (IsSolving (ls ++ link_of equation ∷ []) nodes.new (height + 1)) }
    ensures contradicts { (ls : List (Link ℕ)) → IsSolving ls nodes.old height → OnFalse result (AreContradictory (ls ++ link_of equation ∷ [])) }
{
    let one = find(nodes, height, equation.one);
    let other = find(nodes, height, equation.other);
    let offset = between(one.offset, equation.by, other.offset);
    if one.root == other.root {
        return is_none(offset);
    }
    join(nodes, height, one.root, other.root, offset);
    true
}

/// Numbers below a count, each in a class of its own.
fn singles(alloc: Global, count: usize) -> Result<Vec<Node>, AllocError>
    ensures { IfOk result (λ nodes. AreSingle count nodes.items) }
{
    let mut nodes = Vec::new(alloc);
    for number in 0..count {
        nodes.push(Node {
            parent: number,
            offset: 0,
            rank: 0,
        })?;
    }
    Ok(nodes)
}

/// The places of all numbers.
fn places(alloc: Global, nodes: &[Node], height: usize) -> Result<Vec<Place>, AllocError>
    requires forest { IsForest nodes.now height }
    requires spread { IsSpread nodes.now (2 ^ 61) }
    ensures { IfOk result (λ places. ArePlaces (length nodes.now) nodes.now places.items) }
{
    let mut places = Vec::new(alloc);
    for number in 0..nodes.len() {
        places.push(find(nodes, height, number))?;
    }
    Ok(places)
}

/// Takes equations one after another, and gives the first one that contradicts those before it.
fn tie_all(nodes: &mut [Node], equations: &[Equation]) -> Option<usize>
    requires single { AreSingle (length nodes.old) nodes.old }
    requires below { AreBelow (length nodes.old) (links_of equations.now) }
    requires near { reach (links_of equations.now) ≤ 2 ^ 61 }
    ensures solved { IfNone result (IsSolving (links_of equations.now) nodes.new (length equations.now)) }
    ensures contradicts { IfSome result (λ at. IsFirstToContradict (links_of equations.now) at) }
{
    for (at, equation) in equations.iter().enumerate() {
        if !tie(nodes, at, *equation) {
            return Some(at);
        }
    }
    None
}

/// The classes that equations make of numbers which are each in a class of its own.
#[tactic(auto, unfolding(crate::specs::Forest::IsSolution))]
fn solution(
    alloc: Global,
    nodes: &mut [Node],
    equations: &[Equation],
) -> Result<Solution, AllocError>
    requires single { AreSingle (length nodes.old) nodes.old }
    requires below { AreBelow (length nodes.old) (links_of equations.now) }
    requires near { reach (links_of equations.now) ≤ 2 ^ 61 }
    ensures { IfOk result (λ solution. IsSolution (length nodes.old) (links_of equations.now) solution) }
{
    match tie_all(nodes, equations) {
        Some(at) => Ok(Solution::Contradicts(at)),
        None => Ok(Solution::Solved(places(alloc, nodes, equations.len())?)),
    }
}

/// The classes that equations make of the numbers below a count, or the first equation that contradicts those before it. An error where memory
/// ran out.
pub fn solve(alloc: Global, count: usize, equations: &[Equation]) -> Result<Solution, AllocError>
    requires below { AreBelow count (links_of equations.now) }
    requires near { reach (links_of equations.now) ≤ 2 ^ 61 }
    ensures { IfOk result (λ solution. IsSolution count (links_of equations.now) solution) }
{
    let mut nodes = singles(alloc, count)?;
    solution(alloc, &mut nodes, equations)
}
