//! What the statements at the front of a unit make of its storage.

ghost use Rattle.std.specs.Prelude.{◌≡◌, ◌≤◌, IfOk, length, map};
ghost use Rattle.name_facts.specs.GivenFacts.{AreNameFacts};
ghost use Rattle.name_table.specs.Named.{texts};
ghost use Rattle.unit_equations.specs.BlocksTold.{equation_in};
ghost use Rattle.placing_judge.specs.Walked.{AreUnitTies, TellsOf, IsStandingAt};

use crate::numbering::{number_equations, number_names};
use crate::ties::{StatementTies, add_ties};
use f_tree::Unit;
use name_facts::NameFacts;
use placed_numbers::{Standing, judge_numbers};
use std::alloc::{AllocError, Global};
use unit_equations::{NamedEquation, Numbers, common_blocks, equations_among, first_names};

/// What equations between names make of the blocks that begin with some of them.
fn names_standing<'a>(
    alloc: Global,
    equations: &[NamedEquation<'a>],
    firsts: &[&'a [u8]],
) -> Result<Standing, AllocError>
    ensures { IfOk result (λ standing. TellsOf (map equation_in equations.now) (texts firsts.now) standing) }
{
    let mut numbers = Numbers::new(alloc);
    let numbered = number_equations(alloc, &mut numbers, equations)?;
    let firsts = number_names(alloc, &mut numbers, firsts)?;
    judge_numbers(
        alloc,
        numbers.count(),
        numbered.as_slice(),
        firsts.as_slice(),
    )
}

/// What so many statements at the front of a unit make of its storage, given what its names are, and what its EQUIVALENCE statements say.
pub(crate) fn standing_at<'a>(
    alloc: Global,
    unit: &'a Unit,
    facts: &NameFacts,
    ties: &[StatementTies<'a>],
    front: usize,
) -> Result<Standing, AllocError>
    requires facts { AreNameFacts unit.now facts.now }
    requires ties { AreUnitTies unit.now ties.now }
    requires front { front ≤ length unit.now.statements }
    ensures { IfOk result (λ standing. IsStandingAt unit.now front standing) }
{
    let blocks = common_blocks(alloc, unit, facts, front)?;
    let mut equations = equations_among(alloc, blocks.as_slice())?;
    add_ties(&mut equations, &ties[..front])?;
    let firsts = first_names(alloc, blocks.as_slice())?;
    names_standing(alloc, equations.as_slice(), firsts.as_slice())
}
