//! References that differ in their arguments from the first one of the same procedure (F43). Sections 15.5.2 and 15.6.2.
#![tactic(auto)]

ghost use Rattle.std.specs.Prelude.{◌≡◌, ◌++◌, List, ℕ, OnOk, map, bytes_eq};
ghost use Rattle.declaration_rows.specs.ReferenceRows as rows;
ghost use Rattle.reference_judge.specs.ArgumentsSeen.{kind_in};
ghost use Rattle.reference_judge.specs.FirstShapes as spec;
ghost use Rattle.reference_judge.specs.ReferencesSeen.{located, located_of};

use crate::arguments::ArgumentKind;
use crate::references::Reference;
use f_tree::{Kind, Refusal};
use found_rows::add_unless;
use name_table::NameTable;
use std::alloc::{AllocError, Global};

/// The arguments of the first reference of each procedure.
type FirstArguments<'a> = NameTable<'a, &'a [ArgumentKind]>;

/// Whether two arguments are of one kind.
#[tactic(auto, unfolding(crate::specs::ArgumentsSeen::kind_in, declaration_rows::specs::ReferenceRows::same_kind))]
fn is_same(one: ArgumentKind, other: ArgumentKind) -> bool
    ensures { result ≡ rows.same_kind (kind_in one) (kind_in other) }
{
    match (one, other) {
        (ArgumentKind::Number, ArgumentKind::Number) => true,
        (ArgumentKind::Text, ArgumentKind::Text) => true,
        (ArgumentKind::Procedure, ArgumentKind::Procedure) => true,
        (ArgumentKind::Exit, ArgumentKind::Exit) => true,
        _ => false,
    }
}

/// Whether arguments are as many and of the same kinds.
#[tactic(auto, unfolding(declaration_rows::specs::ReferenceRows::same_kinds))]
fn are_same(one: &[ArgumentKind], other: &[ArgumentKind]) -> bool
    ensures { result ≡ rows.same_kinds (map kind_in one.now) (map kind_in other.now) }
{
    match one {
        [] => match other {
            [] => true,
            [_, ..] => false,
        },
        [first, one_rest @ ..] => match other {
            [] => false,
            [second, other_rest @ ..] => {
                is_same(*first, *second) && are_same(one_rest, other_rest)
            }
        },
    }
}

/// Whether arguments are those of the first reference, where there is one.
#[tactic(auto, unfolding(crate::specs::FirstShapes::agrees))]
fn agrees(first: Option<&[ArgumentKind]>, arguments: &[ArgumentKind]) -> bool
    ensures { result ≡ spec.agrees first.entry arguments.now }
{
    match first {
        Some(first) => are_same(first, arguments),
        None => true,
    }
}

/// Notes the arguments of a reference unless there was one of the same procedure.
fn note<'a>(first: &mut FirstArguments<'a>, reference: &'a Reference) -> Result<(), AllocError>
    ensures { OnOk result ((x : List ℕ) → spec.first_in first.new x
        ≡ spec.first_or (spec.first_in first.old x) (bytes_eq reference.now.name.now x) (map kind_in reference.now.arguments.items)) }
{
    match first.get(reference.name) {
        Some(_) => Ok(()),
        None => first.put(reference.name, reference.arguments.as_slice()),
    }
}

/// Adds the row of a reference that differs from the first one of its procedure.
fn add_row(
    found: &mut Vec<Refusal>,
    first: &FirstArguments,
    reference: &Reference,
) -> Result<(), AllocError>
    ensures { OnOk result (found.new.items ≡ found.old.items ++ spec.shape_row (spec.first_in first.now reference.now.name.now) (located_of reference.now)) }
{
    let holds = agrees(first.get(reference.name), reference.arguments.as_slice());
    add_unless(found, reference.statement, holds, Kind::TwoShapesOfCall)
}

/// Adds the rows of references that differ from the first one of the same procedure.
pub(crate) fn add_shape_rows(
    alloc: Global,
    found: &mut Vec<Refusal>,
    references: &[Reference],
) -> Result<(), AllocError>
    ensures { OnOk result (found.new.items ≡ found.old.items ++ spec.rows_from spec.no_references (located references.now)) }
{
    let mut first = NameTable::new(alloc);
    for reference in references {
        add_row(found, &first, reference)?;
        note(&mut first, reference)?;
    }
    Ok(())
}
