//! The equations that common blocks make between their members. Section 8.3.3.

ghost use Rattle.std.specs.Prelude.{◌≡◌, ◌++◌, OnOk, IfOk, map, pos};
ghost use Rattle.declaration_rows.specs.PlacingRows.{member_equations, block_equations, first_item, first_items};
ghost use Rattle.name_table.specs.Named.{texts};
ghost use Rattle.unit_equations.specs.BlocksTold.{member_in, block_in, equation_in};

use crate::blocks::{Block, Member};
use std::alloc::{AllocError, Global};

/// One name begins so many units behind another.
#[derive(Clone, Copy)]
pub struct NamedEquation<'a> {
    pub one: &'a [u8],
    pub other: &'a [u8],
    pub by: i64,
}

/// A size as a distance, if a distance has room for it.
fn distance(size: u64) -> Result<i64, AllocError>
    ensures { IfOk result (λ by. by ≡ pos size) }
{
    match i64::try_from(size) {
        Ok(by) => Ok(by),
        Err(_) => Err(AllocError),
    }
}

/// Adds the equations of the members of a block.
#[tactic(auto, unfolding(declaration_rows::specs::PlacingRows::member_equations))]
fn add_members<'a>(
    equations: &mut Vec<NamedEquation<'a>>,
    members: &[Member<'a>],
) -> Result<(), AllocError>
    ensures { OnOk result (map equation_in equations.new.items ≡ map equation_in equations.old.items ++ member_equations (map member_in members.now)) }
{
    match members {
        [one, rest @ ..] => match rest {
            [other, ..] => {
                let by = distance(one.size)?;
                equations.push(NamedEquation {
                    one: one.name,
                    other: other.name,
                    by,
                })?;
                add_members(equations, rest)
            }
            [] => Ok(()),
        },
        [] => Ok(()),
    }
}

/// The equations between the members of blocks, block by block. Section 8.3.3.
///
/// # Errors
///
/// Want of memory, or a member of more units than a distance has room for.
pub fn equations_among<'a>(
    alloc: Global,
    blocks: &[Block<'a>],
) -> Result<Vec<NamedEquation<'a>>, AllocError>
    ensures { IfOk result (λ equations. map equation_in equations.items ≡ block_equations (map block_in blocks.now)) }
{
    let mut equations = Vec::new(alloc);
    for block in blocks {
        add_members(&mut equations, block.members.as_slice())?;
    }
    Ok(equations)
}

/// Adds the first item of a block, if it has one.
#[tactic(auto, unfolding(declaration_rows::specs::PlacingRows::first_item))]
fn add_first<'a>(names: &mut Vec<&'a [u8]>, block: &Block<'a>) -> Result<(), AllocError>
    ensures { OnOk result (texts names.new.items ≡ texts names.old.items ++ first_item (block_in block.now)) }
{
    match block.members.as_slice() {
        [first, ..] => {
            names.push(first.name)?;
            Ok(())
        }
        [] => Ok(()),
    }
}

/// The first items of blocks, in their order. Section 8.2.3.
///
/// # Errors
///
/// Want of memory.
pub fn first_names<'a>(alloc: Global, blocks: &[Block<'a>]) -> Result<Vec<&'a [u8]>, AllocError>
    ensures { IfOk result (λ names. texts names.items ≡ first_items (map block_in blocks.now)) }
{
    let mut names = Vec::new(alloc);
    for block in blocks {
        add_first(&mut names, block)?;
    }
    Ok(names)
}
