//! The marks of statements, in their order. Sections 11.6 to 11.10; MIL-STD-1753 for DO WHILE.

ghost use Rattle.std.specs.Prelude.{◌≡◌, [], ◌∷◌, ◌++◌, map, OnOk, IfOk, length};
ghost use Rattle.f_tree.specs.Lines.{mark_of};
ghost use Rattle.lowered_text.specs.Texts.{marked_of};
ghost use Rattle.unit_lowering.specs.LineForms.{form_in};
ghost use Rattle.unit_lowering.specs.LineMarks as spec;

use crate::forms::{ArmForm, LoopForm, arm_form, control_at, loop_form};
use crate::numbered::{place_at, statement_at};
use f_tree::{Body, Stmt};
use lowered_text::{Mark, Marked};
use statement_places::{StatementPlace, Turn};
use std::alloc::{AllocError, Global};

/// The mark of the nest of IF blocks at a statement.
#[tactic(auto, unfolding(crate::specs::LineForms::mark_by, crate::specs::LineMarks::marks_of, crate::specs::LineMarks::arm_marks, lowering::specs::Units::marked, lowered_text::specs::Texts::marked_of, lowered_text::specs::Texts::mark_of))]
fn arm_mark(body: &Body, place: &StatementPlace) -> Option<Marked>
    ensures { spec.marks_of result ≡ spec.arm_marks (mark_of body.now) place.now }
{
    match arm_form(body) {
        ArmForm::Opens => Some(Marked {
            at: place.own_end,
            mark: Mark::OpensArm,
        }),
        ArmForm::Arm => Some(Marked {
            at: place.own_start,
            mark: Mark::NextArm,
        }),
        ArmForm::Closes => Some(Marked {
            at: place.start,
            mark: Mark::ClosesArm,
        }),
        ArmForm::Plain => None,
    }
}

/// The mark of the card of a statement, where it has steps of its own.
#[tactic(auto, unfolding(crate::specs::LineMarks::marks_of, crate::specs::LineMarks::card_marks, lowering::specs::Units::marked, lowered_text::specs::Texts::marked_of, lowered_text::specs::Texts::mark_of))]
fn card_mark(card: u32, place: &StatementPlace) -> Option<Marked>
    ensures { spec.marks_of result ≡ spec.card_marks card place.now }
{
    if place.own_start == place.own_end {
        None
    } else {
        Some(Marked {
            at: place.own_start,
            mark: Mark::Card(card),
        })
    }
}

/// The mark of the loop that a statement begins.
#[tactic(auto, unfolding(crate::specs::LineMarks::marks_of, crate::specs::LineMarks::loop_marks, lowering::specs::Units::marked, lowered_text::specs::Texts::marked_of, lowered_text::specs::Texts::mark_of))]
fn loop_mark(once: bool, body: &Body, place: &StatementPlace) -> Option<Marked>
    ensures { spec.marks_of result ≡ spec.loop_marks once (form_in body.now) place.now }
{
    match (loop_form(body), once) {
        (LoopForm::Counted, true) => Some(Marked {
            at: place.own_end,
            mark: Mark::OpensLoopOnce,
        }),
        (LoopForm::Counted, false) => Some(Marked {
            at: place.own_end.saturating_sub(1),
            mark: Mark::OpensLoop,
        }),
        (LoopForm::Tested, _) => Some(Marked {
            at: place.own_start,
            mark: Mark::OpensWhile,
        }),
        (LoopForm::Other, _) => None,
    }
}

/// The mark of the end of a loop.
#[tactic(auto, unfolding(crate::specs::LineMarks::marks_of, crate::specs::LineMarks::turn_marks, lowering::specs::Units::marked, lowered_text::specs::Texts::marked_of, lowered_text::specs::Texts::mark_of))]
fn turn_mark(statements: &[Stmt], turn: Turn) -> Marked
    ensures { marked_of result ∷ [] ≡ spec.turn_marks statements.now turn }
{
    let mark = match control_at(statements, turn.first) {
        Some(_) => Mark::ClosesLoop,
        None => Mark::ClosesWhile,
    };
    Marked { at: turn.at, mark }
}

/// Appends a mark.
fn push_mark(marks: &mut Vec<Marked>, mark: Marked) -> Result<(), AllocError>
    ensures { OnOk result (map marked_of marks.new.items ≡ map marked_of marks.old.items ++ marked_of mark ∷ []) }
{
    marks.push(mark)?;
    Ok(())
}

/// Appends a mark, if there is one.
#[tactic(auto, unfolding(crate::specs::LineMarks::marks_of))]
fn add_mark(marks: &mut Vec<Marked>, mark: Option<Marked>) -> Result<(), AllocError>
    ensures { OnOk result (map marked_of marks.new.items ≡ map marked_of marks.old.items ++ spec.marks_of mark) }
{
    match mark {
        Some(marked) => push_mark(marks, marked),
        None => Ok(()),
    }
}

/// Appends the marks of the ends of loops.
fn add_turn_marks(
    statements: &[Stmt],
    turns: &[Turn],
    marks: &mut Vec<Marked>,
) -> Result<(), AllocError>
    ensures { OnOk result (map marked_of marks.new.items ≡ map marked_of marks.old.items ++ spec.turns_marks statements.now turns.now) }
{
    for turn in turns {
        push_mark(marks, turn_mark(statements, *turn))?;
    }
    Ok(())
}

/// Appends the marks of a statement.
fn add_line_marks(
    once: bool,
    statements: &[Stmt],
    statement: &Stmt,
    place: &StatementPlace,
    marks: &mut Vec<Marked>,
) -> Result<(), AllocError>
    ensures { OnOk result (map marked_of marks.new.items ≡ map marked_of marks.old.items ++ spec.line_marks once statements.now statement.now place.now) }
{
    add_mark(marks, arm_mark(&statement.body, place))?;
    add_mark(marks, card_mark(statement.card, place))?;
    add_mark(marks, loop_mark(once, &statement.body, place))?;
    add_turn_marks(statements, place.turns.as_slice(), marks)
}

/// Appends the marks of a statement by its number in the unit, if there is such a statement with a place.
#[tactic(auto, unfolding(crate::specs::LineMarks::line_at, crate::specs::LineMarks::line_by))]
fn add_marks_at(
    once: bool,
    statements: &[Stmt],
    places: &[StatementPlace],
    at: usize,
    marks: &mut Vec<Marked>,
) -> Result<(), AllocError>
    ensures { OnOk result (map marked_of marks.new.items ≡ map marked_of marks.old.items ++ spec.line_at once statements.now places.now at) }
{
    match (statement_at(statements, at), place_at(places, at)) {
        (Some(statement), Some(place)) => add_line_marks(once, statements, statement, place, marks),
        (Some(_), None) => Ok(()),
        (None, _) => Ok(()),
    }
}

/// The marks of statements.
pub(crate) fn lines_marks(
    alloc: Global,
    once: bool,
    statements: &[Stmt],
    places: &[StatementPlace],
) -> Result<Vec<Marked>, AllocError>
    ensures { IfOk result (λ marks. map marked_of marks.items ≡ spec.lines_marks once statements.now places.now (length statements.now)) }
{
    let mut marks = Vec::new(alloc);
    for at in 0..statements.len() {
        add_marks_at(once, statements, places, at, &mut marks)?;
    }
    Ok(marks)
}
