//! The functions that end a run: by STOP (ANSI X3.9-1978, 11.12), and at a place outside its declared bounds.

ghost use Rattle.std.specs.Prelude.{◌≡◌, length, [], ◌∷◌, List, ℕ, Option, Some, None, drop, slice_get};
ghost use Rattle.c_tree.specs.World.{Stops, Range};
ghost use Rattle.c_tree.specs.Builtins as builtin;
ghost use Rattle.c_tree.specs.Library.{stopped};
ghost use Rattle.c_tree.specs.Objects.{Bytes};
ghost use Rattle.c_tree.specs.LibraryArguments as arguments;
ghost use Rattle.run_bytes.specs.Answers.{answered};
ghost use Rattle.library_calls.specs.Answers.{Answers};
ghost use Rattle.library_calls.specs.Arguments as found;
ghost use Rattle.library_calls.specs.Reports.{report_shown};
ghost use Rattle.library_calls.specs.Names.{zero_in, zero_first};

use crate::arguments::{as_number, length_from};
use c_tree::outcome::{CFault, CValue};
use run_bytes::RunBytes;

/// A place outside its declared bounds.
#[derive(Clone, Copy, Debug, PartialEq, Eq)]
pub struct RangeReport<'a> {
    /// The name of the variable.
    pub variable: &'a [u8],
    /// The subscript, or the place of a substring, that is out of bounds.
    pub number: i32,
    /// The name of the unit.
    pub unit: &'a [u8],
    /// The card of the statement.
    pub card: i32,
}

/// The text of a STOP, by a pointer to it and its length.
///
/// # Errors
/// `Kind` for a length that is no number and `Library` for a negative one; what `RunBytes::text` answers of the text.
pub fn ending_text(run: &RunBytes, pointer: CValue, size: CValue) -> Result<&[u8], CFault>
    ensures { answered (λ text. text.now) result ≡ found.ending_text run.now pointer size }
{
    let count = length_from(size)?;
    run.text(pointer, count)
}

/// The text with which a run ends by STOP; the empty one where it has none.
///
/// # Errors
/// `Kind` for a length that is no number and `Library` for a negative one; what `RunBytes::text` answers of the text.
pub fn s_stop(run: &RunBytes, pointer: CValue, size: CValue) -> Result<&[u8], CFault>
    ensures { Answers (λ text world. stopped world text.now) builtin.s_stop (pointer ∷ size ∷ []) run.now run.now result }
{
    ending_text(run, pointer, size)
}

/// Whether the byte at an offset of an object is zero; nothing where it is not set, or where there is none.
fn is_zero(run: &RunBytes, object: usize, offset: usize) -> Option<bool>
    ensures { (cells : List (Option ℕ)) → slice_get run.now object ≡ Some (Bytes cells) → result ≡ zero_first (drop offset cells) }
{
    match run.text(CValue::Pointer { object, offset }, 1) {
        Ok(text) => Some(text[0] == 0),
        Err(_) => None,
    }
}

/// How many bytes from an offset of an object on, up to its end, stand before the first zero byte.
fn size_before_zero(run: &RunBytes, object: usize, offset: usize, end: usize) -> Option<usize>
    ensures { (cells : List (Option ℕ)) → slice_get run.now object ≡ Some (Bytes cells) → end ≡ length cells → result ≡ zero_in (drop offset cells) }
{
    for place in offset..end {
        match is_zero(run, object, place) {
            Some(zero) => {
                if zero {
                    return Some(place - offset);
                }
            }
            None => return None,
        }
    }
    None
}

/// How many bytes from an offset of an object on stand before the first zero byte; none where a byte is not set or the object ends
/// first.
fn name_size(run: &RunBytes, object: usize, offset: usize) -> Option<usize>
    ensures none { slice_get run.now object ≡ None → result ≡ None }
    ensures found { (cells : List (Option ℕ)) → slice_get run.now object ≡ Some (Bytes cells) → result ≡ zero_in (drop offset cells) }
{
    match run.extent(object) {
        Some(end) => size_before_zero(run, object, offset, end),
        None => None,
    }
}

/// The bytes of a name up to its zero byte, from an offset of an object on.
fn name_in(run: &RunBytes, object: usize, offset: usize) -> Result<&[u8], CFault>
    ensures { answered (λ name. name.now) result ≡ arguments.name_in (slice_get run.now object) offset }
{
    match run.held_type(object) {
        Some(_) => Err(CFault::Kind),
        None => match name_size(run, object, offset) {
            Some(size) => run.text(CValue::Pointer { object, offset }, size),
            None => Err(CFault::Library),
        },
    }
}

/// The name that a pointer points to, up to its zero byte.
fn name_at(run: &RunBytes, pointer: CValue) -> Result<&[u8], CFault>
    ensures { answered (λ name. name.now) result ≡ arguments.name_at run.now pointer }
{
    match pointer {
        CValue::Pointer { object, offset } => name_in(run, object, offset),
        _ => Err(CFault::Library),
    }
}

/// What is reported of a place outside its declared bounds.
///
/// # Errors
/// `Library` for a name without its zero byte and for what is no pointer to one, `Kind` for an object of values in its place and for
/// what is no number.
pub fn report_of(
    run: &RunBytes,
    variable: CValue,
    number: CValue,
    unit: CValue,
    card: CValue,
) -> Result<RangeReport<'_>, CFault>
    ensures { answered report_shown result ≡ found.report_of run.now variable number unit card }
{
    let variable = name_at(run, variable)?;
    let number = as_number(number)?;
    let unit = name_at(run, unit)?;
    let card = as_number(card)?;
    Ok(RangeReport {
        variable,
        number,
        unit,
        card,
    })
}

/// What is reported of a place outside its declared bounds, at which a run ends.
///
/// # Errors
/// `Library` for a name without its zero byte and for what is no pointer to one, `Kind` for an object of values in its place and for
/// what is no number.
pub fn s_rnge(
    run: &RunBytes,
    variable: CValue,
    number: CValue,
    unit: CValue,
    card: CValue,
) -> Result<RangeReport<'_>, CFault>
    ensures { Answers (λ report world. Stops (Range (report_shown report)) world) builtin.s_rnge (variable ∷ number ∷ unit ∷ card ∷ []) run.now run.now result }
{
    report_of(run, variable, number, unit, card)
}
