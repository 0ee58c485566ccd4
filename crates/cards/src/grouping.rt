//! The cards of each statement. Section 3.3.

ghost use Rattle.std.specs.Prelude.{◌≡◌, ◌+◌, ◌<◌, ◌^◌, length, IfOk};
ghost use Rattle.fortran_text.specs.declared.source.CardKind.TheVariants.{Initial, Continuation};
ghost use Rattle.cards.specs.Passes.{begun, extended, closed, with_begun, with_more, group_by, group_after, counted, count_of};

use crate::kinds::{field_of, is_end, kind_of, label_of, text_of};
use fortran_text::{CardKind, Statement};
use plain_data::Items;
use std::alloc::{AllocError, Global};

/// The statement that may go on, and how many continuation cards it has.
#[derive(Drop)]
pub(crate) struct Current {
    pub(crate) statement: Statement,
    pub(crate) continuations: u32,
}

/// The statements of the cards so far: those that are closed, and the one that may go on.
#[derive(Drop)]
pub(crate) struct Group {
    pub(crate) done: Items<Statement>,
    pub(crate) current: Option<Current>,
}

/// How many continuation cards the statement has that may go on.
pub(crate) fn counted(current: &Option<Current>) -> Option<u32>
    ensures { result ≡ counted current.now }
{
    match current {
        Some(current) => Some(current.continuations),
        None => None,
    }
}

/// The statement of an initial card alone.
fn begun(alloc: Global, file: usize, number: u32, columns: &[u8]) -> Result<Statement, AllocError>
    requires { length columns.now ≡ 72 }
    ensures { IfOk result (λ statement. statement ≡ begun file number columns.now) }
{
    Ok(Statement {
        label: label_of(field_of(columns)),
        text: Items::from_slice(alloc, text_of(columns))?,
        file,
        card: number,
    })
}

/// A statement with more text.
fn extended(alloc: Global, statement: Statement, text: &[u8]) -> Result<Statement, AllocError>
    ensures { IfOk result (λ longer. longer ≡ extended statement text.now) }
{
    let mut longer = statement;
    longer.text.append(Items::from_slice(alloc, text)?)?;
    Ok(longer)
}

/// The statements with the one that may go on.
pub(crate) fn closed(group: Group) -> Result<Items<Statement>, AllocError>
    ensures { IfOk result (λ statements. statements ≡ closed group.done group.current) }
{
    let Group { mut done, current } = group;
    if let Some(current) = current {
        done.push(current.statement)?;
    }
    Ok(done)
}

/// What is kept behind an initial card.
fn with_begun(done: Items<Statement>, statement: Statement, ends: bool) -> Result<Group, AllocError>
    ensures { IfOk result (λ next. next ≡ with_begun done statement ends) }
{
    if ends {
        let mut done = done;
        done.push(statement)?;
        return Ok(Group {
            done,
            current: None,
        });
    }
    Ok(Group {
        done,
        current: Some(Current {
            statement,
            continuations: 0,
        }),
    })
}

/// What is kept behind an initial card, with the statements before it.
fn behind_initial(
    alloc: Global,
    file: usize,
    number: u32,
    group: Group,
    columns: &[u8],
) -> Result<Group, AllocError>
    requires { length columns.now ≡ 72 }
    ensures { IfOk result (λ next. next ≡ group_by Initial file number group columns.now) }
{
    let statement = begun(alloc, file, number, columns)?;
    with_begun(closed(group)?, statement, is_end(text_of(columns)))
}

/// What is kept behind a continuation card.
fn with_more(
    alloc: Global,
    current: Option<Current>,
    text: &[u8],
) -> Result<Option<Current>, AllocError>
    requires { count_of current + 1 < 2 ^ 32 }
    ensures { IfOk result (λ next. next ≡ with_more current text.now) }
{
    match current {
        None => Ok(None),
        Some(
            Current {
                statement,
                continuations,
            },
        ) => Ok(Some(Current {
            statement: extended(alloc, statement, text)?,
            continuations: continuations + 1,
        })),
    }
}

/// What is kept behind a continuation card, with the statements before it.
fn behind_continuation(alloc: Global, group: Group, columns: &[u8]) -> Result<Group, AllocError>
    requires columns { length columns.now ≡ 72 }
    requires room { count_of group.current + 1 < 2 ^ 32 }
    ensures { IfOk result (λ next. next ≡ group_by Continuation 0 0 group columns.now) }
{
    let Group { done, current } = group;
    Ok(Group {
        current: with_more(alloc, current, text_of(columns))?,
        done,
    })
}

/// What is kept behind a card.
#[tactic(auto, unfolding(crate::specs::Passes::group_after))]
pub(crate) fn group_after(
    alloc: Global,
    file: usize,
    number: u32,
    group: Group,
    columns: &[u8],
) -> Result<Group, AllocError>
    requires columns { length columns.now ≡ 72 }
    requires room { count_of group.current + 1 < 2 ^ 32 }
    ensures { IfOk result (λ next. next ≡ group_after file number group columns.now) }
{
    match kind_of(columns) {
        CardKind::Comment => Ok(group),
        CardKind::Initial => behind_initial(alloc, file, number, group, columns),
        CardKind::Continuation => behind_continuation(alloc, group, columns),
    }
}
