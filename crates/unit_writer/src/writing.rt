//! Functions.

ghost use Rattle.std.specs.HashMap.{get_by};
ghost use Rattle.std.specs.Prelude.{◌≡◌, IfOk, map, option_map, bytes_eq};
ghost use Rattle.item_emitter.specs.Knowing.{known_of};
ghost use Rattle.lowered_tree.specs.Shapes.{steps_of};
ghost use Rattle.unit_writer.specs.Functions.{body_by, function_by};
ghost use Rattle.unit_writer.specs.ToldUnits.{IsWrittenUnit, bound_told};

use crate::functions::function;
use crate::heading::{Heading, Procedure};
use crate::statements::body;
use crate::telling::known;
use c_tree::file::CFunction;
use indexmap::IndexMap;
use item_emitter::Known;
use lowered_text::LoweredText;
use name_facts::NameFacts;
use std::alloc::{AllocError, Global};
use unit_contents::Contents;

/// The function, given what is known.
fn written(
    alloc: Global,
    table: &NameFacts,
    names: &[&[u8]],
    heading: &Heading,
    procedures: &IndexMap<&[u8], Procedure>,
    known: &Known,
    text: &LoweredText,
    contents: &Contents,
) -> Result<Option<CFunction>, AllocError>
    ensures { IfOk result (λ found. found
        ≡ option_map (function_by table.now (map (λ name. name.now) names.now) heading.now (λ x. get_by (λ k. bytes_eq x k.now) procedures.now) contents.now) (body_by (known_of known.now) (map bound_told heading.now.bounds.items) contents.now (steps_of text.now.steps.items))) }
{
    match body(alloc, known, &heading.bounds, contents, text)? {
        Some(body) => {
            Ok(Some(function(alloc, table, names, heading, procedures, contents, body)?))
        }
        None => Ok(None),
    }
}

/// The C function of a unit among several, given what its names are, the names in their order, its head, the procedures of the set by their names, the
/// constants that its file passes, its lowered text behind what it keeps of its dummy arrays, and the contents of that; none where a bound or a step is not
/// emitted, where the steps have no structure, or where an output is not in place.
///
/// # Errors
///
/// Want of memory, a position or a dimension that has no number, or an array of more elements than a number has room for.
pub fn write_unit<'a>(
    alloc: Global,
    table: &NameFacts,
    names: &[&'a [u8]],
    heading: &Heading,
    procedures: &IndexMap<&'a [u8], Procedure>,
    constants: &[i32],
    text: &LoweredText,
    contents: &Contents,
) -> Result<Option<CFunction>, AllocError>
    ensures { IfOk result (λ function. IsWrittenUnit table.now (map (λ name. name.now) names.now) heading.now (λ x. get_by (λ k. bytes_eq x k.now) procedures.now) constants.now text.now contents.now function) }
{
    let known = known(
        alloc, table, names, heading, procedures, constants, text, contents,
    )?;
    written(
        alloc, table, names, heading, procedures, &known, text, contents,
    )
}
