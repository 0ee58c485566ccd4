//! How many items statements have (C89, 3.6).

ghost use Rattle.std.specs.Prelude.{◌≡◌, ◌+◌, IfOk};
ghost use Rattle.c_tree.specs.FlatForm as form;

use c_tree::statement::CStmt;
use std::alloc::AllocError;

/// The sum of two numbers of items. An error says that no memory has so many.
pub(crate) fn plus(first: usize, second: usize) -> Result<usize, AllocError>
    ensures { IfOk result (λ sum. sum ≡ first + second) }
{
    first.checked_add(second).ok_or(AllocError)
}

/// How many items a statement has.
#[cycle(size)]
fn statement_size(one: &CStmt) -> Result<usize, AllocError>
    ensures { IfOk result (λ size. size ≡ (form.body one.now).size) }
{
    match one {
        CStmt::Set(..) => Ok(1),
        CStmt::SetCall(..) => Ok(1),
        CStmt::Call(_) => Ok(1),
        CStmt::Empty => Ok(1),
        CStmt::Block(list) => statements_size(list.as_slice()),
        CStmt::Label(_, inner) => statement_size(inner.get()),
        CStmt::Goto(_) => Ok(1),
        CStmt::Return(_) => Ok(1),
        CStmt::ReturnCall(_) => Ok(2),
        CStmt::If(_, first, other) => {
            let size = statements_size(first.as_slice())?;
            match other {
                None => plus(1, size),
                Some(second) => {
                    let both = plus(size, statements_size(second.as_slice())?)?;
                    plus(2, both)
                }
            }
        }
        CStmt::Switch(_, cases) => plus(1, cases.len()),
        CStmt::For(_, _, _, _, turn) => {
            let size = statements_size(turn.as_slice())?;
            plus(4, size)
        }
        CStmt::DoWhile(turn, _) => {
            let size = statements_size(turn.as_slice())?;
            plus(size, 1)
        }
    }
}

/// How many items statements have.
#[cycle(size)]
pub(crate) fn statements_size(list: &[CStmt]) -> Result<usize, AllocError>
    ensures { IfOk result (λ size. size ≡ (form.body_of_all list.now).size) }
{
    let mut size = 0;
    for one in list {
        size = plus(size, statement_size(one)?)?;
    }
    Ok(size)
}
