//! Statements with the items that belong to them, from parts that are built already.

ghost use Rattle.std.specs.Prelude.{◌≡◌, ◌+◌, ◌<◌, ◌^◌, [], ◌∷◌, drop, option_copied, IfOk, Option, Some, None};
ghost use Rattle.c_tree.specs.declared.statement.CStmt.TheVariants as stmt;
ghost use Rattle.c_structure.specs.Statements.{with_label};
ghost use Rattle.named_items.specs.Layouts.{layout_of};
ghost use Rattle.named_items.specs.Structured as spec;

use c_tree::expression::{CCall, CExpr};
use c_tree::statement::{CCase, CNext, CStmt};
use named_items::{Callee, Head, Item, Layout, Part};
use plain_data::{Boxed, Items};
use std::alloc::{AllocError, Global};
use std::collections::VecDeque;

/// Nothing, in place of what is given.
pub(crate) fn nothing<T: Drop, U>(_given: T) -> Option<U>
    ensures { result ≡ None }
{
    None
}

/// Lets go of what is given.
pub(crate) fn passed<T: Drop>(_given: T) {}

/// Lets go of so many items.
pub(crate) fn pass(items: &mut VecDeque<Item>, count: usize)
    ensures { items.new.items ≡ drop count items.old.items }
{
    let mut left = count;
    while left > 0 {
        left -= 1;
        passed(items.pop_front());
    }
}

/// A statement with a label.
fn with_name(alloc: Global, name: &[u8], statement: CStmt) -> Result<CStmt, AllocError>
    ensures { IfOk result (λ s. s ≡ stmt.Label name.now statement) }
{
    let inner = Boxed::new(alloc, statement)?;
    let name = Items::from_slice(alloc, name)?;
    Ok(CStmt::Label(name, inner))
}

/// A statement with its label, where it has one.
#[tactic(auto)]
fn labelled(alloc: Global, label: Option<&[u8]>, statement: CStmt) -> Result<CStmt, AllocError>
    ensures { IfOk result (λ s. s ≡ with_label (option_copied label.entry) statement) }
{
    match label {
        Some(name) => with_name(alloc, name, statement),
        None => Ok(statement),
    }
}

/// A part whose statement has its label.
#[tactic(auto)]
pub(crate) fn marked(
    alloc: Global,
    label: Option<&[u8]>,
    part: Option<Part>,
) -> Result<Option<Part>, AllocError>
    ensures { IfOk result (λ p. p ≡ spec.marked (option_copied label.entry) part) }
{
    match part {
        Some(Part { statement, taken }) => {
            let statement = labelled(alloc, label, statement)?;
            Ok(Some(Part { statement, taken }))
        }
        None => Ok(None),
    }
}

/// A jump to a label, where there is one.
#[tactic(auto, unfolding(named_items::specs::Structured::goto_label))]
fn goto_label(alloc: Global, label: Option<&[u8]>) -> Result<Option<CStmt>, AllocError>
    ensures { IfOk result (λ s. s ≡ spec.goto_label (option_copied label.entry)) }
{
    match label {
        Some(name) => Ok(Some(CStmt::Goto(Items::from_slice(alloc, name)?))),
        None => Ok(None),
    }
}

/// A call of a function.
#[tactic(auto, unfolding(named_items::specs::Structured::call_of))]
fn call_of(callee: Callee, arguments: Items<CExpr>) -> CStmt
    ensures { result ≡ spec.call_of callee arguments }
{
    CStmt::Call(CCall {
        through: callee.through,
        name: callee.name,
        arguments,
    })
}

/// A call of a function, whose value is stored.
#[tactic(auto, unfolding(named_items::specs::Structured::set_call_of))]
fn set_call_of(target: CExpr, callee: Callee, arguments: Items<CExpr>) -> CStmt
    ensures { result ≡ spec.set_call_of target callee arguments }
{
    let call = CCall {
        through: callee.through,
        name: callee.name,
        arguments,
    };
    CStmt::SetCall(target, call)
}

/// The statement of one item, where it has one of its own.
#[tactic(auto, unfolding(named_items::specs::Structured::statement_of))]
pub(crate) fn statement_of(
    alloc: Global,
    layout: &Layout,
    item: Item,
) -> Result<Option<CStmt>, AllocError>
    ensures { IfOk result (λ s. s ≡ spec.statement_of (layout_of layout.now) item) }
{
    match item {
        Item::Assign(place, value) => Ok(Some(CStmt::Set(place, value))),
        Item::Branch(_, _, _) | Item::Select(_, _, _) => Ok(None),
        Item::Jump(position) => goto_label(alloc, layout.label(position)),
        Item::Call(callee, arguments) => Ok(Some(call_of(callee, arguments))),
        Item::SetCall(target, callee, arguments) => Ok(Some(set_call_of(
            target, callee, arguments,
        ))),
        Item::Return(value) => Ok(Some(CStmt::Return(value))),
        Item::Nothing => Ok(Some(CStmt::Empty)),
    }
}

/// A statement to which no items behind the first belong.
#[tactic(auto, unfolding(named_items::specs::Structured::alone))]
pub(crate) fn alone(statement: Option<CStmt>) -> Option<Part>
    ensures { result ≡ spec.alone statement }
{
    match statement {
        Some(statement) => Some(Part {
            statement,
            taken: 0,
        }),
        None => None,
    }
}

/// A `switch` to which so many jumps belong.
#[tactic(auto, unfolding(named_items::specs::Structured::switch_by))]
pub(crate) fn switch_by(value: CExpr, size: usize, cases: Option<Items<CCase>>) -> Option<Part>
    ensures { result ≡ spec.switch_by value size cases }
{
    match cases {
        Some(cases) => Some(Part {
            statement: CStmt::Switch(value, cases),
            taken: size,
        }),
        None => None,
    }
}

/// An `if` whose block has so many items.
#[tactic(auto, unfolding(named_items::specs::Structured::if_by))]
pub(crate) fn if_by(test: CExpr, size: usize, first: Option<Items<CStmt>>) -> Option<Part>
    ensures { result ≡ spec.if_by test size first }
{
    match first {
        Some(first) => Some(Part {
            statement: CStmt::If(test, first, None),
            taken: size,
        }),
        None => None,
    }
}

/// An `if` with an `else`, whose blocks and the jump between them are so many items.
#[tactic(auto, unfolding(named_items::specs::Structured::if_else_by))]
pub(crate) fn if_else_by(
    test: CExpr,
    size: usize,
    first: Items<CStmt>,
    second: Option<Items<CStmt>>,
) -> Option<Part>
    ensures { result ≡ spec.if_else_by test size (Some first) second }
{
    match second {
        Some(second) => Some(Part {
            statement: CStmt::If(test, first, Some(second)),
            taken: size,
        }),
        None => None,
    }
}

/// A `for`, whose turn has so many items.
#[tactic(auto, unfolding(named_items::specs::Structured::for_by))]
pub(crate) fn for_by(
    head: Head,
    size: usize,
    next: Option<CNext>,
    turn: Items<CStmt>,
) -> Option<Part>
    requires { size + 3 < 2 ^ 64 }
    ensures { result ≡ spec.for_by head size next (Some turn) }
{
    let Head {
        variable,
        first,
        test,
    } = head;
    match next {
        Some(next) => Some(Part {
            statement: CStmt::For(variable, first, test, next, turn),
            taken: size + 3,
        }),
        None => None,
    }
}

/// The expression that an item tests.
#[tactic(auto, unfolding(named_items::specs::Structured::test_in))]
pub(crate) fn test_in(item: Option<Item>) -> Option<CExpr>
    ensures { result ≡ spec.test_in item }
{
    match item {
        Some(Item::Branch(test, _, _)) => Some(test),
        _ => None,
    }
}

/// An assignment, and a `do` behind it.
fn set_and_do(
    alloc: Global,
    variable: CExpr,
    first: CExpr,
    turn: Items<CStmt>,
    test: CExpr,
) -> Result<CStmt, AllocError>
    ensures { IfOk result (λ s. s ≡ stmt.Block (stmt.Set variable first ∷ stmt.DoWhile turn test ∷ [])) }
{
    let mut inner = Vec::new(alloc);
    inner.push(CStmt::Set(variable, first))?;
    inner.push(CStmt::DoWhile(turn, test))?;
    Ok(CStmt::Block(Items::from_vec(inner)))
}

/// An assignment and a `do` whose turn has so many items, with the test behind them.
#[tactic(auto, unfolding(named_items::specs::Structured::do_by))]
pub(crate) fn do_by(
    alloc: Global,
    variable: CExpr,
    first: CExpr,
    size: usize,
    turn: Items<CStmt>,
    test: Option<CExpr>,
) -> Result<Option<Part>, AllocError>
    requires { size + 1 < 2 ^ 64 }
    ensures { IfOk result (λ p. p ≡ spec.do_by variable first size (Some turn) test) }
{
    match test {
        Some(test) => {
            let statement = set_and_do(alloc, variable, first, turn, test)?;
            Ok(Some(Part {
                statement,
                taken: size + 1,
            }))
        }
        None => Ok(nothing((variable, first, turn))),
    }
}
