//! What the EQUIVALENCE statements of a unit say. Section 8.2.

ghost use Rattle.std.specs.Prelude.{◌≡◌, ◌++◌, OnOk, map};
ghost use Rattle.unit_equations.specs.BlocksTold.{equation_in};
ghost use Rattle.placing_judge.specs.Walked.{ties_in};

use std::alloc::AllocError;
use unit_equations::NamedEquation;

/// What a statement says of places that are one; a statement that is no EQUIVALENCE says nothing.
#[derive(Drop)]
pub struct StatementTies<'a> {
    /// Whether each place has constant subscripts and stands within its name. Section 8.2.4.
    pub settled: bool,
    pub equations: Vec<NamedEquation<'a>>,
}

/// Adds the equations of statements.
pub(crate) fn add_ties<'a>(
    equations: &mut Vec<NamedEquation<'a>>,
    ties: &[StatementTies<'a>],
) -> Result<(), AllocError>
    ensures { OnOk result (map equation_in equations.new.items ≡ map equation_in equations.old.items ++ ties_in ties.now) }
{
    for statement in ties {
        equations.extend_from_slice(statement.equations.as_slice())?;
    }
    Ok(())
}
