//! Whether the range of a DO ends. Section 11.10.

ghost use Rattle.std.specs.Prelude.{◌≡◌, ◌&&◌, length};
ghost use Rattle.declaration_rows.specs.UnitRows as rows;
ghost use Rattle.loop_ranges.specs.LoopForms.{form_of};
ghost use Rattle.statements_judge.specs.UnitLoops as spec;

use crate::forms::may_end_loop;
use f_tree::{Body, Stmt};
use loop_ranges::forms::{LoopForm, loop_form};

/// Whether a terminal statement stands behind a place and before the last of some statements.
#[tactic(auto, unfolding(declaration_rows::specs::UnitRows::is_behind))]
fn is_behind(place: usize, count: usize, terminal: Option<usize>) -> bool
    ensures { result ≡ rows.is_behind place count terminal }
{
    match terminal {
        Some(terminal) => place < terminal && terminal < count.saturating_sub(1),
        None => false,
    }
}

/// Whether the statement at a place may end a DO with a label.
#[tactic(auto, using(std::proofs::lemmas::Option::gets), unfolding(crate::specs::UnitLoops::may_end_at, declaration_rows::specs::UnitRows::such_statement))]
fn may_end_at(statements: &[Stmt], place: usize) -> bool
    ensures { result ≡ spec.may_end_at statements.now place }
{
    match statements.get(place) {
        Some(statement) => may_end_loop(&statement.body),
        None => false,
    }
}

/// Whether a terminal statement may end a DO with a label.
#[tactic(auto, unfolding(declaration_rows::specs::UnitRows::such_at, crate::specs::UnitLoops::may_end_at))]
fn may_end(statements: &[Stmt], terminal: Option<usize>) -> bool
    ensures { result ≡ rows.such_at rows.may_end_loop statements.now terminal }
{
    match terminal {
        Some(place) => may_end_at(statements, place),
        None => false,
    }
}

/// Whether the terminal statement of a loop may end it.
#[tactic(auto, unfolding(crate::specs::UnitLoops::may_end_form))]
fn may_end_form(form: LoopForm, statements: &[Stmt], terminal: Option<usize>) -> bool
    ensures { result ≡ spec.may_end_form form statements.now terminal }
{
    match form {
        LoopForm::ToLabel(_) => may_end(statements, terminal),
        LoopForm::ToEndDo | LoopForm::EndDo | LoopForm::Other => true,
    }
}

/// Whether the range of the DO or DO WHILE at a place ends, given the place of its terminal statement.
#[tactic(auto, unfolding(crate::specs::UnitLoops::range_ends))]
pub(crate) fn range_ends(
    statements: &[Stmt],
    body: &Body,
    place: usize,
    terminal: Option<usize>,
) -> bool
    ensures { result ≡ spec.range_ends statements.now (form_of body.now) place terminal }
{
    is_behind(place, statements.len(), terminal)
        && may_end_form(loop_form(body), statements, terminal)
}
