//! STOP. ANSI X3.9-1978, section 11.12.

ghost use Rattle.std.specs.Prelude.{◌≡◌, Some, IfOk};
ghost use Rattle.item_emission.specs.NamedEmission as spec;

use crate::arithmetic::count;
use crate::calls::{cast, library_call, pair};
use c_tree::expression::CExpr;
use c_tree::types::CastType;
use named_items::Item;
use plain_data::Items;
use std::alloc::{AllocError, Global};

/// The call that ends the run, with a text and its length.
#[tactic(auto, unfolding(item_emission::specs::NamedEmission::stop_call))]
fn stop_call(alloc: Global, text: &[u8], size: CExpr) -> Result<Item, AllocError>
    ensures { IfOk result (λ i. i ≡ spec.stop_call text.now size) }
{
    let size = cast(alloc, CastType::Length, size)?;
    let text = CExpr::Str(Items::from_slice(alloc, text)?);
    let arguments = pair(alloc, text, size)?;
    library_call(alloc, b"s_stop", arguments)
}

/// The item of STOP; none where the length of the text has no constant.
#[tactic(auto, unfolding(item_emission::specs::NamedEmission::stop_step))]
pub(crate) fn stop(alloc: Global, text: &[u8]) -> Result<Option<Item>, AllocError>
    ensures { IfOk result (λ i. i ≡ spec.stop_step text.now) }
{
    match count(text.len() as u64) {
        Some(size) => Ok(Some(stop_call(alloc, text, size)?)),
        None => Ok(None),
    }
}
