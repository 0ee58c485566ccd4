//! Small units as trees.

use f_tree::{Body, DummyArgument, Expr, File, Stmt, Unit, UnitKind};
use plain_data::Items;
use std::alloc::{AllocError, Global};

/// A list of one thing.
pub fn one<T: Drop>(alloc: Global, item: T) -> Result<Items<T>, AllocError> {
    let mut items = Items::new(alloc);
    items.push(item)?;
    Ok(items)
}

/// A statement without a label on a card of the first file.
pub fn statement(card: u32, body: Body) -> Stmt {
    Stmt {
        label: None,
        file: 0,
        card,
        body,
    }
}

/// CALL of a subroutine.
pub fn call(alloc: Global, name: &[u8], arguments: Items<Expr>) -> Result<Body, AllocError> {
    Ok(Body::Call(Items::from_slice(alloc, name)?, arguments))
}

/// A main program without a PROGRAM statement.
pub fn main_program(alloc: Global, statements: Items<Stmt>) -> Unit {
    Unit {
        file: 0,
        card: 1,
        kind: UnitKind::Main,
        name: None,
        dummies: Items::new(alloc),
        statements,
    }
}

/// A subroutine of one dummy argument `I`, and its END.
pub fn subroutine(alloc: Global, card: u32, name: &[u8], end: Stmt) -> Result<Unit, AllocError> {
    let dummy = DummyArgument::Named(Items::from_slice(alloc, b"i")?);
    Ok(Unit {
        file: 0,
        card,
        kind: UnitKind::Subroutine,
        name: Some(Items::from_slice(alloc, name)?),
        dummies: one(alloc, dummy)?,
        statements: one(alloc, end)?,
    })
}

/// A file of some units.
pub fn file(units: Items<Unit>) -> File {
    File { units }
}
