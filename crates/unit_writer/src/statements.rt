//! The statements of a unit's function. Sections 5.5.1, 10 to 12 and 15; C89, 3.6.

ghost use Rattle.std.specs.Prelude.{◌≡◌, IfOk, map};
ghost use Rattle.item_emitter.specs.Knowing.{known_of};
ghost use Rattle.lowered_tree.specs.Shapes.{steps_of};
ghost use Rattle.named_items.specs.Layouts.{layout_of};
ghost use Rattle.main_translation.specs.Outlined as outlined;
ghost use Rattle.unit_writer.specs.Functions.{body_by};
ghost use Rattle.unit_writer.specs.ToldUnits.{bound_told};
ghost use Rattle.named_mains.specs.NamedMains.{statements_of};

use crate::emission::items_of;
use crate::heading::KeptBound;
use c_tree::statement::CStmt;
use item_emitter::Known;
use lowered_text::LoweredText;
use named_items::{Item, Layout};
use plain_data::Items;
use statement_builder::build_statements;
use std::alloc::{AllocError, Global};
use unit_contents::Contents;

/// Whether a statement is a return, be it behind labels.
#[cycle(returns)]
#[tactic(auto, using(crate::proofs::ReturnForms::returns_forms))]
fn returns(statement: &CStmt) -> bool
    ensures { result ≡ outlined.returns statement.now }
{
    match statement {
        CStmt::Return(_) => true,
        CStmt::Label(_, labelled) => returns(labelled.get()),
        CStmt::Set(..) | CStmt::SetCall(..) | CStmt::Call(_) | CStmt::Empty => false,
        CStmt::Block(_) | CStmt::Goto(_) | CStmt::ReturnCall(_) | CStmt::If(..) => false,
        CStmt::Switch(..) | CStmt::For(..) | CStmt::DoWhile(..) => false,
    }
}

/// Whether the last statement is a return.
fn returns_last(body: &[CStmt]) -> bool
    ensures { result ≡ outlined.returns_last body.now }
{
    match body.last() {
        Some(last) => returns(last),
        None => false,
    }
}

/// Statements, where the last of them is a return.
#[tactic(auto, unfolding(main_translation::specs::Outlined::if_returned))]
fn if_returned(body: Items<CStmt>) -> Option<Items<CStmt>>
    ensures { result ≡ outlined.if_returned body }
{
    if returns_last(body.as_slice()) {
        Some(body)
    } else {
        None
    }
}

/// The statements of items; none where they have none.
#[tactic(auto, unfolding(named_mains::specs::NamedMains::statements_of))]
fn statements(
    alloc: Global,
    layout: &Layout,
    items: Vec<Item>,
) -> Result<Option<Items<CStmt>>, AllocError>
    ensures { IfOk result (λ body. body ≡ statements_of (layout_of layout.now) items.items) }
{
    match build_statements(alloc, layout, items)? {
        Some(body) => Ok(if_returned(body)),
        None => Ok(None),
    }
}

/// The statements by which bounds are kept and those of a text; none where a bound or a step is not emitted, where the steps have no structure, or where an
/// output is not in place.
///
/// # Errors
///
/// Want of memory, or a dimension that has no number.
#[tactic(auto, unfolding(crate::specs::Functions::body_by))]
pub(crate) fn body(
    alloc: Global,
    known: &Known,
    bounds: &[KeptBound],
    contents: &Contents,
    text: &LoweredText,
) -> Result<Option<Items<CStmt>>, AllocError>
    ensures { IfOk result (λ found. found ≡ body_by (known_of known.now) (map bound_told bounds.now) contents.now (steps_of text.now.steps.items)) }
{
    if !contents.are_outputs_in_place {
        return Ok(None);
    }
    match items_of(alloc, known, &contents.kinds, bounds, &text.steps)? {
        Some(items) => statements(alloc, &contents.layout, items),
        None => Ok(None),
    }
}
