//! The rows of storage that a statement breaks.

ghost use Rattle.std.specs.Prelude.{◌≡◌, ◌++◌, OnOk};
ghost use Rattle.placing_judge.specs.Walked.{rows_between};

use crate::faults::Fault;
use f_tree::{Kind, Refusal, Stmt};
use found_rows::add_unless;
use std::alloc::AllocError;

/// Adds the rows of a statement, given whether its places are constant and stand within their names, and the fault of the statements before it and of
/// those up to it.
#[tactic(auto, unfolding(crate::specs::Walked::rows_between))]
pub(crate) fn add_rows(
    found: &mut Vec<Refusal>,
    statement: &Stmt,
    settled: bool,
    before: Fault,
    now: Fault,
) -> Result<(), AllocError>
    ensures { OnOk result (found.new.items ≡ found.old.items ++ rows_between statement.now settled before now) }
{
    let contradicts = now.is_wrong() && !before.is_wrong();
    let joins = now.is_joined() && !before.is_joined();
    add_unless(found, statement, settled, Kind::EquivalenceContradiction)?;
    add_unless(
        found,
        statement,
        !contradicts,
        Kind::EquivalenceContradiction,
    )?;
    add_unless(found, statement, !joins, Kind::CommonJoinedOrExtended)
}
