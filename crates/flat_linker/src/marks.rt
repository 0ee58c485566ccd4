//! Where labels stand (C89, 3.6.1).

ghost use Rattle.std.specs.Prelude.{◌≡◌, ℕ, List, IfOk};
ghost use Rattle.first_names.specs.FirstNames.{first_of};
ghost use Rattle.c_tree.specs.FlatForm as form;
ghost use Rattle.flat_linker.specs.LabelMarks.{Marked};

use crate::sizes::plus;
use c_tree::statement::CStmt;
use first_names::FirstNames;
use std::alloc::{AllocError, Global};

/// Puts the labels of a statement at a position into a table, and gives the position behind it.
#[cycle(mark)]
fn mark_statement<'a>(
    marks: &mut FirstNames<'a, usize>,
    position: usize,
    one: &'a CStmt,
) -> Result<usize, AllocError>
    ensures { IfOk result (λ behind. Marked ((form.body one.now).labels position) (form.body one.now).size position behind marks.old marks.new) }
{
    match one {
        CStmt::Set(..) => plus(position, 1),
        CStmt::SetCall(..) => plus(position, 1),
        CStmt::Call(_) => plus(position, 1),
        CStmt::Empty => plus(position, 1),
        CStmt::Block(list) => mark_statements(marks, position, list.as_slice()),
        CStmt::Label(name, inner) => {
            marks.give(name.as_slice(), position)?;
            mark_statement(marks, position, inner.get())
        }
        CStmt::Goto(_) => plus(position, 1),
        CStmt::Return(_) => plus(position, 1),
        CStmt::ReturnCall(_) => plus(position, 2),
        CStmt::If(_, first, other) => {
            let arm = plus(position, 1)?;
            let behind = mark_statements(marks, arm, first.as_slice())?;
            match other {
                None => Ok(behind),
                Some(second) => {
                    let arm = plus(behind, 1)?;
                    mark_statements(marks, arm, second.as_slice())
                }
            }
        }
        CStmt::Switch(_, cases) => {
            let size = plus(1, cases.len())?;
            plus(position, size)
        }
        CStmt::For(_, _, _, _, turn) => {
            let first = plus(position, 2)?;
            let behind = mark_statements(marks, first, turn.as_slice())?;
            plus(behind, 2)
        }
        CStmt::DoWhile(turn, _) => {
            let behind = mark_statements(marks, position, turn.as_slice())?;
            plus(behind, 1)
        }
    }
}

/// Puts the labels of statements from a position on into a table, and gives the position behind them.
#[cycle(mark)]
fn mark_statements<'a>(
    marks: &mut FirstNames<'a, usize>,
    position: usize,
    list: &'a [CStmt],
) -> Result<usize, AllocError>
    ensures { IfOk result (λ behind. Marked ((form.body_of_all list.now).labels position) (form.body_of_all list.now).size position behind marks.old marks.new) }
{
    let mut behind = position;
    for one in list {
        behind = mark_statement(marks, behind, one)?;
    }
    Ok(behind)
}

/// Where the labels of a function's statements stand.
pub(crate) fn labels_of(alloc: Global, list: &[CStmt]) -> Result<FirstNames<'_, usize>, AllocError>
    ensures { IfOk result (λ marks. (q : List ℕ) → first_of marks q ≡ form.position_of ((form.body_of_all list.now).labels 0) q) }
{
    let mut marks = FirstNames::new(alloc);
    mark_statements(&mut marks, 0, list)?;
    Ok(marks)
}
