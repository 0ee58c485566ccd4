//! The contents of a text.

ghost use Rattle.std.specs.Prelude.{IfOk};
ghost use Rattle.unit_contents.specs.ContentsOf.{AreContentsOf};

use crate::contents::Contents;
use crate::kinds::kinds;
use crate::layout::layout;
use crate::outputs::are_in_place;
use crate::procedures::procedures_in;
use crate::targets::targets;
use crate::walks::{calls_of, listings, string_positions, temporaries_kept};
use lowered_text::LoweredText;
use name_facts::NameFacts;
use std::alloc::{AllocError, Global};

/// What the C function of a unit has, given its lowered text and what its names are.
///
/// # Errors
///
/// Want of memory, or a temporary or a label that has no number.
pub fn contents_of(
    alloc: Global,
    table: &NameFacts,
    text: &LoweredText,
) -> Result<Contents, AllocError>
    ensures { IfOk result (λ contents. AreContentsOf table.now text.now contents) }
{
    let steps = text.steps.as_slice();
    let targets = targets(alloc, text)?;
    let kinds = kinds(alloc, table, text, targets.as_slice())?;
    let lists = listings(alloc, steps)?;
    let temporaries = temporaries_kept(steps)?;
    let calls = calls_of(alloc, steps)?;
    let procedures = procedures_in(alloc, table, steps)?;
    let strings = string_positions(alloc, steps)?;
    let are_outputs_in_place = are_in_place(table, text, targets.as_slice(), kinds.as_slice());
    let layout = layout(alloc, text)?;
    Ok(Contents {
        lists,
        temporaries,
        calls,
        procedures,
        strings,
        kinds,
        are_outputs_in_place,
        layout,
    })
}
