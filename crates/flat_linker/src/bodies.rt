//! The statements of a function, linked (C89, 3.6.6.4 and 3.7.1).

ghost use Rattle.std.specs.Prelude.{◌≡◌, map};
ghost use Rattle.c_tree.specs.FlatForm as form;
ghost use Rattle.first_names.specs.FirstNames.{first_of};
ghost use Rattle.linked_terms.specs.LinkedItems.{flat_of};
ghost use Rattle.expression_linker.specs.LinkedParts.{Links};
ghost use Rattle.expression_linker.specs.NamesInScope.{scope_of};
ghost use Rattle.flat_linker.specs.LostNames.{some_lost};
ghost use Rattle.flat_linker.specs.PutItems.{PutsBody};

use crate::items::put;
use crate::marks::labels_of;
use crate::statements::{Known, put_statements};
use crate::written::Written;
use c_tree::statement::CStmt;
use expression_linker::{LinkFail, NameScope};
use linked_terms::LinkedItem;
use plain_data::Items;
use std::alloc::Global;

/// Whether a statement, its labels aside, is a return.
#[tactic(auto, using(crate::proofs::ReturnForms::return_forms))]
fn is_return(one: &CStmt) -> bool
    ensures { result ≡ form.is_return one.now }
{
    match one {
        CStmt::Set(..) => false,
        CStmt::SetCall(..) => false,
        CStmt::Call(_) => false,
        CStmt::Empty => false,
        CStmt::Block(_) => false,
        CStmt::Label(_, inner) => is_return(inner.get()),
        CStmt::Goto(_) => false,
        CStmt::Return(_) => true,
        CStmt::ReturnCall(_) => true,
        CStmt::If(..) => false,
        CStmt::Switch(..) => false,
        CStmt::For(..) => false,
        CStmt::DoWhile(..) => false,
    }
}

/// Whether the last statement is a return.
#[tactic(auto, using(std::proofs::lemmas::Grind::common_steps))]
fn ends(list: &[CStmt]) -> bool
    ensures { result ≡ form.ends list.now }
{
    let mut ends = false;
    for one in list {
        ends = is_return(one);
    }
    ends
}

/// Puts a function's statements, with a return behind them where the last one is none.
fn put_body(known: &Known<'_>, out: &mut Written, list: &[CStmt]) -> Result<(), LinkFail>
    ensures { PutsBody result (form.whole_body list.now) (scope_of known.now.scope.now) (first_of known.now.labels.now) out.old out.new }
{
    put_statements(known, out, list)?;
    if ends(list) {
        return Ok(());
    }
    put(out, LinkedItem::Return(None))
}

/// The items of a function's statements, one for each step, whose strings have the numbers from `first_string` on.
///
/// # Errors
/// A name that stands for nothing, one that is no function's where a function is called, or a label that the function does not have; or want of
/// memory.
pub fn link_body(
    alloc: Global,
    scope: &NameScope<'_>,
    first_string: usize,
    list: &[CStmt],
) -> Result<Items<LinkedItem>, LinkFail>
    ensures { Links (map flat_of) some_lost result (form.flat_form (form.whole_body list.now) (scope_of scope.now) first_string) }
{
    let labels = labels_of(alloc, list)?;
    let known = Known {
        alloc,
        scope,
        labels: &labels,
    };
    let mut out = Written {
        items: Items::new(alloc),
        next: first_string,
    };
    put_body(&known, &mut out, list)?;
    let Written { items, .. } = out;
    Ok(items)
}
