//! Lists of what is read and written. Section 12.8.2.

ghost use Rattle.std.specs.Prelude.{◌≡◌};
ghost use Rattle.declaration_rows.specs.StatementRows as rows;
ghost use Rattle.statement_judge.specs.StatementSteps as spec;

use crate::loops::loop_control;
use crate::site::Site;
use expression_judge::{Found, Operand, judge};
use f_tree::{Basic, Direction, Kind, ListItem};
use kind_order::unless;
use refusal_order::lesser_of;

/// Whether a type has values.
#[tactic(auto, unfolding(declaration_rows::specs::StatementRows::is_typed))]
fn is_typed(basic: Basic) -> bool
    ensures { result ≡ rows.is_typed basic }
{
    match basic {
        Basic::Integer | Basic::Logical | Basic::Character => true,
        Basic::Untyped => false,
    }
}

/// The row that an operand breaks where it is read.
#[tactic(auto, unfolding(crate::specs::StatementSteps::read_found))]
fn read_one(what: Operand) -> Option<Kind>
    ensures { result ≡ spec.read_found what }
{
    match what {
        Operand::Place | Operand::Nothing => None,
        Operand::Array(sized) => unless(sized, Kind::NumberOfSubscripts),
        Operand::Value | Operand::ProcedureName => Some(Kind::NotAssignable),
        Operand::FunctionName | Operand::Exit(_) => Some(Kind::NotAssignable),
    }
}

/// The row that an operand breaks where it is written.
#[tactic(auto, unfolding(crate::specs::StatementSteps::written_found))]
fn written_one(what: Operand, basic: Basic) -> Option<Kind>
    ensures { result ≡ spec.written_found what basic }
{
    match what {
        Operand::Value => unless(is_typed(basic), Kind::OperandTypes),
        Operand::Place => None,
        Operand::Array(sized) => unless(sized, Kind::NumberOfSubscripts),
        Operand::ProcedureName | Operand::FunctionName => Some(Kind::OperandTypes),
        Operand::Exit(_) | Operand::Nothing => Some(Kind::OperandTypes),
    }
}

/// The least row of an expression that is read or written.
#[tactic(auto, unfolding(crate::specs::StatementSteps::item_found))]
fn item_row(way: Direction, found: Found) -> Option<Kind>
    ensures { result ≡ spec.item_found way found }
{
    match way {
        Direction::Read => lesser_of(found.fault, read_one(found.what)),
        Direction::Write => lesser_of(found.fault, written_one(found.what, found.basic)),
    }
}

/// The least row of an item.
#[cycle(listed)]
#[tactic(auto, using(crate::proofs::StatementForms::item_forms))]
fn item(site: &Site, way: Direction, item: &ListItem) -> Option<Kind>
    ensures { result ≡ spec.item_by site.now way item.now }
{
    match item {
        ListItem::Item(e) => item_row(way, judge(site.names, e)),
        ListItem::Loop(items, control) => lesser_of(
            listed(site, way, items.as_slice()),
            loop_control(site, control),
        ),
    }
}

/// The least row of a list.
#[cycle(listed)]
#[tactic(auto, unfolding(crate::specs::StatementSteps::listed_by, crate::specs::StatementSteps::joined_onward))]
pub(crate) fn listed(site: &Site, way: Direction, items: &[ListItem]) -> Option<Kind>
    ensures { result ≡ spec.listed_by site.now way items.now }
{
    let mut fault = None;
    for one in items {
        fault = lesser_of(fault, item(site, way, one));
    }
    fault
}
