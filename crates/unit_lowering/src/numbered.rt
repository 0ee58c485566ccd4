//! Statements, and where their steps stand, by their numbers in the unit, from 0.

ghost use Rattle.std.specs.Prelude.{◌≡◌, slice_get};
ghost use Rattle.std.specs.Option.{option_copied};

use f_tree::Stmt;
use statement_places::StatementPlace;

/// A statement, if it is there.
pub(crate) fn statement_at(statements: &[Stmt], at: usize) -> Option<&Stmt>
    ensures { option_copied result ≡ slice_get statements.now at }
{
    statements.get(at)
}

/// Where the steps of a statement stand, if it is there.
pub(crate) fn place_at(places: &[StatementPlace], at: usize) -> Option<&StatementPlace>
    ensures { option_copied result ≡ slice_get places.now at }
{
    places.get(at)
}
