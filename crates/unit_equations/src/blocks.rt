//! Common blocks with their members. Section 8.3.

ghost use Rattle.std.specs.Prelude.{◌≡◌, ◌≤◌, ◌++◌, [], OnOk, IfOk, map, take, length, option_copied};
ghost use Rattle.f_tree.specs.Attributes.{from_all};
ghost use Rattle.f_tree.specs.Lines.{member_of, same_block, into_block, blocks_from, common_in};
ghost use Rattle.declaration_rows.specs.NameRows.{given_names};
ghost use Rattle.name_facts.specs.GivenFacts.{AreNameFacts};
ghost use Rattle.unit_equations.specs.BlocksTold.{naming_by, member_in, block_in, place_in};

use crate::sizes::stored_size;
use f_tree::{ArrayDeclarator, Body, CommonGroup, Stmt, Unit};
use name_facts::NameFacts;
use std::alloc::{AllocError, Global};

/// A member of a common block, with its character units.
#[derive(Clone, Copy)]
pub struct Member<'a> {
    pub name: &'a [u8],
    pub size: u64,
}

/// A common block; blank common has no name.
#[derive(Drop)]
pub struct Block<'a> {
    pub name: Option<&'a [u8]>,
    pub members: Vec<Member<'a>>,
}

/// The members that a list of COMMON adds.
fn members<'a>(
    alloc: Global,
    facts: &NameFacts,
    items: &'a [ArrayDeclarator],
) -> Result<Vec<Member<'a>>, AllocError>
    ensures { IfOk result (λ members. map member_in members.items ≡ map (member_of (naming_by facts.now)) items.now) }
{
    let mut members = Vec::new(alloc);
    for item in items {
        let name = item.name.as_slice();
        let size = stored_size(facts, name)?;
        members.push(Member { name, size })?;
    }
    Ok(members)
}

/// Whether two blocks are one.
#[tactic(auto, unfolding(f_tree::specs::Lines::same_block))]
fn is_same(one: Option<&[u8]>, other: Option<&[u8]>) -> bool
    ensures { result ≡ same_block (option_copied one.entry) (option_copied other.entry) }
{
    match (one, other) {
        (None, None) => true,
        (Some(name), Some(other)) => name == other,
        (None, Some(_)) | (Some(_), None) => false,
    }
}

/// The place of a block among blocks; their number where it is not among them.
#[tactic(auto, unfolding(crate::specs::BlocksTold::place_in))]
fn place_of(blocks: &[Block], name: Option<&[u8]>) -> usize
    ensures value { result ≡ place_in (option_copied name.entry) (map block_in blocks.now) }
    ensures within { result ≤ length blocks.now }
{
    match blocks {
        [first, rest @ ..] => {
            if is_same(first.name, name) {
                return 0;
            }
            place_of(rest, name) + 1
        }
        [] => 0,
    }
}

/// The name of the block of a list of COMMON.
fn block_name(group: &CommonGroup) -> Option<&[u8]>
    ensures { option_copied result ≡ group.now.block }
{
    match &group.block {
        Some(name) => Some(name.as_slice()),
        None => None,
    }
}

/// Adds a list of COMMON to its block.
fn add_group<'a>(
    alloc: Global,
    facts: &NameFacts,
    blocks: &mut Vec<Block<'a>>,
    group: &'a CommonGroup,
) -> Result<(), AllocError>
    ensures { OnOk result (map block_in blocks.new.items
        ≡ into_block group.now.block (map (member_of (naming_by facts.now)) group.now.items) (map block_in blocks.old.items)) }
{
    let name = block_name(group);
    let members = members(alloc, facts, group.items.as_slice())?;
    let place = place_of(blocks.as_slice(), name);
    if place < blocks.len() {
        return blocks[place].members.extend_from_slice(members.as_slice());
    }
    blocks.push(Block { name, members })?;
    Ok(())
}

/// Adds lists of COMMON to their blocks.
fn add_groups<'a>(
    alloc: Global,
    facts: &NameFacts,
    blocks: &mut Vec<Block<'a>>,
    groups: &'a [CommonGroup],
) -> Result<(), AllocError>
    ensures { OnOk result (map block_in blocks.new.items ≡ blocks_from (naming_by facts.now) (map block_in blocks.old.items) groups.now) }
{
    for group in groups {
        add_group(alloc, facts, blocks, group)?;
    }
    Ok(())
}

/// Adds what a statement says of blocks.
fn add_body<'a>(
    alloc: Global,
    facts: &NameFacts,
    blocks: &mut Vec<Block<'a>>,
    body: &'a Body,
) -> Result<(), AllocError>
    ensures { OnOk result (map block_in blocks.new.items ≡ blocks_from (naming_by facts.now) (map block_in blocks.old.items) (common_in body.now)) }
{
    match body {
        Body::Common(groups) => add_groups(alloc, facts, blocks, groups.as_slice()),
        _ => Ok(()),
    }
}

/// The blocks that statements make.
fn blocks_among<'a>(
    alloc: Global,
    facts: &NameFacts,
    statements: &'a [Stmt],
) -> Result<Vec<Block<'a>>, AllocError>
    ensures { IfOk result (λ blocks. map block_in blocks.items ≡ blocks_from (naming_by facts.now) [] (from_all common_in statements.now)) }
{
    let mut blocks = Vec::new(alloc);
    for statement in statements {
        add_body(alloc, facts, &mut blocks, &statement.body)?;
    }
    Ok(blocks)
}

/// The common blocks that so many statements at the front of a unit make, each with its members in their order, given what the names of the unit
/// are. Section 8.3.
///
/// # Errors
///
/// Want of memory, or a member of more units than a number has room for.
pub fn common_blocks<'a>(
    alloc: Global,
    unit: &'a Unit,
    facts: &NameFacts,
    front: usize,
) -> Result<Vec<Block<'a>>, AllocError>
    requires facts { AreNameFacts unit.now facts.now }
    requires front { front ≤ length unit.now.statements }
    ensures { IfOk result (λ blocks. map block_in blocks.items
        ≡ blocks_from (given_names unit.now) [] (from_all common_in (take front unit.now.statements))) }
{
    blocks_among(alloc, facts, &unit.statements.as_slice()[..front])
}
