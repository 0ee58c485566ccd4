//! The fault of the storage of a unit, statement by statement.

ghost use Rattle.std.specs.Prelude.{◌≡◌, ◌<◌, ◌≤◌, ◌+◌, IfOk, length};
ghost use Rattle.std.specs.Bool.{OnFalse};
ghost use Rattle.name_facts.specs.GivenFacts.{AreNameFacts};
ghost use Rattle.placing_judge.specs.Walked.{AreUnitTies, IsFaultAt, is_wrong, is_joined, fault_by, SaysNothing};

use crate::fronts::standing_at;
use crate::ties::StatementTies;
use f_tree::{Body, Unit};
use name_facts::NameFacts;
use placed_numbers::Standing;
use std::alloc::{AllocError, Global};

/// What is wrong with the storage that statements make.
#[derive(Clone, Copy)]
pub(crate) enum Fault {
    Nothing,
    JoinedOrExtended,
    Contradicted,
}

impl Fault {
    /// Whether equations contradict each other.
    #[tactic(auto, unfolding(crate::specs::Walked::is_wrong))]
    pub(crate) fn is_wrong(self) -> bool
        ensures { result ≡ is_wrong self }
    {
        match self {
            Fault::Contradicted => true,
            Fault::Nothing | Fault::JoinedOrExtended => false,
        }
    }

    /// Whether a block is joined or extended.
    #[tactic(auto, unfolding(crate::specs::Walked::is_joined))]
    pub(crate) fn is_joined(self) -> bool
        ensures { result ≡ is_joined self }
    {
        match self {
            Fault::JoinedOrExtended => true,
            Fault::Nothing | Fault::Contradicted => false,
        }
    }
}

/// The fault of a standing.
#[tactic(auto, unfolding(crate::specs::Walked::fault_by))]
fn fault_of(standing: &Standing) -> Fault
    ensures { result ≡ fault_by standing.now }
{
    match standing {
        Standing::Sound(_) => Fault::Nothing,
        Standing::JoinedOrExtended => Fault::JoinedOrExtended,
        Standing::Contradicted => Fault::Contradicted,
    }
}

/// The fault of so many statements at the front of a unit.
pub(crate) fn fault_at<'a>(
    alloc: Global,
    unit: &'a Unit,
    facts: &NameFacts,
    ties: &[StatementTies<'a>],
    front: usize,
) -> Result<Fault, AllocError>
    requires facts { AreNameFacts unit.now facts.now }
    requires ties { AreUnitTies unit.now ties.now }
    requires front { front ≤ length unit.now.statements }
    ensures { IfOk result (λ fault. IsFaultAt unit.now front fault) }
{
    let standing = standing_at(alloc, unit, facts, ties, front)?;
    Ok(fault_of(&standing))
}

/// Whether a statement says something of storage that names share.
#[tactic(auto, using(crate::proofs::FrontLaws::says_nothing))]
fn shares_storage(body: &Body) -> bool
    ensures { OnFalse result (SaysNothing body.now) }
{
    matches!(body, Body::Common(_) | Body::Equivalence(_))
}

/// The fault of the statements up to one more, given that of those before it.
pub(crate) fn next_fault<'a>(
    alloc: Global,
    unit: &'a Unit,
    facts: &NameFacts,
    ties: &[StatementTies<'a>],
    at: usize,
    before: Fault,
) -> Result<Fault, AllocError>
    requires facts { AreNameFacts unit.now facts.now }
    requires ties { AreUnitTies unit.now ties.now }
    requires at { at < length unit.now.statements }
    requires before { IsFaultAt unit.now at before }
    ensures { IfOk result (λ fault. IsFaultAt unit.now (at + 1) fault) }
{
    if !shares_storage(&unit.statements.as_slice()[at].body) {
        return Ok(before);
    }
    fault_at(alloc, unit, facts, ties, at + 1)
}
