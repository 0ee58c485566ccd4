//! The references of external procedures and of dummy procedures in expressions. Sections 15.5.2 and 15.6.2.
#![tactic(auto)]

ghost use Rattle.std.specs.Prelude.{◌≡◌, ◌++◌, ◌∷◌, [], OnOk, map, option_map};
ghost use Rattle.reference_judge.specs.ArgumentsSeen as spec;
ghost use Rattle.reference_judge.specs.ReferencesSeen.{located, at};

use crate::arguments::{ArgumentKind, argument_kinds};
use expression_judge::Names;
use f_tree::{Class, Expr, Stmt};
use plain_data::Boxed;
use std::alloc::{AllocError, Global};

/// A reference of a procedure in a statement.
#[derive(Drop)]
pub(crate) struct Reference<'a> {
    pub statement: &'a Stmt,
    pub name: &'a [u8],
    /// What its arguments are, in their order.
    pub arguments: Vec<ArgumentKind>,
}

/// Puts a reference behind others.
#[tactic(auto, unfolding(crate::specs::ReferencesSeen::at, crate::specs::ReferencesSeen::located_of))]
fn put_reference<'a>(
    references: &mut Vec<Reference<'a>>,
    statement: &'a Stmt,
    name: &'a [u8],
    arguments: Vec<ArgumentKind>,
) -> Result<(), AllocError>
    ensures { OnOk result (located references.new.items
        ≡ located references.old.items ++ at statement.now (record { name = name.now; arguments = map spec.kind_in arguments.items } ∷ [])) }
{
    references.push(Reference {
        statement,
        name,
        arguments,
    })?;
    Ok(())
}

/// Adds the reference of a procedure with these actual arguments.
#[tactic(auto, unfolding(crate::specs::ArgumentsSeen::reference_by))]
pub(crate) fn add_reference<'a>(
    alloc: Global,
    names: &Names,
    name: &'a [u8],
    es: &[Expr],
    statement: &'a Stmt,
    references: &mut Vec<Reference<'a>>,
) -> Result<(), AllocError>
    ensures { OnOk result (located references.new.items
        ≡ located references.old.items ++ at statement.now (spec.reference_by name.now (map (spec.sight_by names.now) es.now) ∷ [])) }
{
    let arguments = argument_kinds(alloc, names, es)?;
    put_reference(references, statement, name, arguments)
}

/// Whether a name of a class with a list refers to a procedure: an external one, a dummy one, or the function itself.
#[tactic(auto, unfolding(crate::specs::ArgumentsSeen::is_called_by_list))]
fn is_called_by_list(class: Class) -> bool
    ensures { result ≡ spec.is_called_by_list class }
{
    match class {
        Class::Procedure | Class::DummyProcedure | Class::Result => true,
        Class::Constant | Class::Stored | Class::Dummy | Class::StatementFunction => false,
        Class::Intrinsic | Class::Unit => false,
    }
}

/// Adds the reference that a name with a list makes, if it makes one.
#[tactic(auto, unfolding(crate::specs::ArgumentsSeen::called_references, crate::specs::ReferencesSeen::at))]
fn add_called<'a>(
    alloc: Global,
    names: &Names,
    name: &'a [u8],
    es: &[Expr],
    statement: &'a Stmt,
    references: &mut Vec<Reference<'a>>,
) -> Result<(), AllocError>
    ensures { OnOk result (located references.new.items
        ≡ located references.old.items ++ at statement.now (spec.called_references names.now name.now (map (spec.sight_by names.now) es.now))) }
{
    if is_called_by_list(names.fact(name).class) {
        return add_reference(alloc, names, name, es, statement, references);
    }
    Ok(())
}

/// Adds the references in an expression, those in its parts first.
#[cycle(references)]
#[tactic(auto, using(crate::proofs::SightForms::reference_forms))]
pub(crate) fn add_references<'a>(
    alloc: Global,
    names: &Names,
    e: &'a Expr,
    statement: &'a Stmt,
    references: &mut Vec<Reference<'a>>,
) -> Result<(), AllocError>
    ensures { OnOk result (located references.new.items ≡ located references.old.items ++ at statement.now (spec.sight_by names.now e.now).references) }
{
    match e {
        Expr::Int(_) | Expr::Logical(_) | Expr::Text(_) | Expr::Name(_) => Ok(()),
        Expr::AltReturn(_) | Expr::Bind(..) | Expr::Bound(_) => Ok(()),
        Expr::Apply(name, es) => {
            add_list(alloc, names, es.as_slice(), statement, references)?;
            add_called(
                alloc,
                names,
                name.as_slice(),
                es.as_slice(),
                statement,
                references,
            )
        }
        Expr::Part(base, from, to) => {
            add_references(alloc, names, base.get(), statement, references)?;
            add_place(alloc, names, from, statement, references)?;
            add_place(alloc, names, to, statement, references)
        }
        Expr::Minus(operand) | Expr::Plus(operand) => {
            add_references(alloc, names, operand.get(), statement, references)
        }
        Expr::Not(operand) | Expr::Paren(operand) => {
            add_references(alloc, names, operand.get(), statement, references)
        }
        Expr::Binary(_, left, right) => {
            add_references(alloc, names, left.get(), statement, references)?;
            add_references(alloc, names, right.get(), statement, references)
        }
    }
}

/// Adds the references in the first or the last place of a substring.
#[cycle(references)]
#[tactic(auto, unfolding(crate::specs::ArgumentsSeen::option_references, crate::specs::ReferencesSeen::at))]
fn add_place<'a>(
    alloc: Global,
    names: &Names,
    place: &'a Option<Boxed<Expr>>,
    statement: &'a Stmt,
    references: &mut Vec<Reference<'a>>,
) -> Result<(), AllocError>
    ensures { OnOk result (located references.new.items
        ≡ located references.old.items ++ at statement.now (spec.option_references (option_map (spec.sight_by names.now) place.now))) }
{
    match place {
        Some(e) => add_references(alloc, names, e.get(), statement, references),
        None => Ok(()),
    }
}

/// Adds the references in expressions.
#[cycle(references)]
fn add_list<'a>(
    alloc: Global,
    names: &Names,
    es: &'a [Expr],
    statement: &'a Stmt,
    references: &mut Vec<Reference<'a>>,
) -> Result<(), AllocError>
    ensures { OnOk result (located references.new.items
        ≡ located references.old.items ++ at statement.now (spec.all_references (map (spec.sight_by names.now) es.now))) }
{
    for e in es {
        add_references(alloc, names, e, statement, references)?;
    }
    Ok(())
}
