//! The functions that assign a text (ANSI X3.9-1978, 6.2.2.2 and 10.4). All bytes are fetched before one is stored, so that places may
//! overlap: the text is put together in a buffer, which is as long as the largest object.

ghost use Rattle.std.specs.Prelude.{◌≡◌, ◌≤◌, ◌<◌, ℕ, [], ◌∷◌, List, length};
ghost use Rattle.c_tree.specs.World.{Void};
ghost use Rattle.c_tree.specs.Builtins as builtin;
ghost use Rattle.c_tree.specs.LibraryArguments as arguments;
ghost use Rattle.c_tree.specs.LibraryTexts as texts;
ghost use Rattle.c_tree.specs.Faults.{failing};
ghost use Rattle.run_bytes.specs.Answers.{answered};
ghost use Rattle.run_bytes.specs.Layout.{Stores};
ghost use Rattle.library_calls.specs.Answers.{Answers};
ghost use Rattle.library_calls.specs.Arguments as found;
ghost use Rattle.library_calls.specs.Pieces.{piece_at, Holds, Collects, CanShift};
ghost use Rattle.library_calls.specs.Room.{HasRoom};

use crate::arguments::{count_from, length_from, number_through};
use c_tree::outcome::{CFault, CValue};
use library_texts::{append_piece, copy_text, pad_gathered};
use run_bytes::{AccessType, PointedType, RunBytes};

/// The fault of a text that is longer than each object, where a pointer points to.
fn too_long(run: &RunBytes, target: CValue) -> CFault
    ensures { (size : ℕ) → (text : List ℕ) → HasRoom size run.now → size < length text → arguments.text_stored run.now target text ≡ failing result }
{
    match target {
        CValue::Pointer { object, .. } => match run.held_type(object) {
            Some(_) => CFault::Kind,
            None => CFault::Outside,
        },
        CValue::Null => CFault::Outside,
        _ => CFault::Kind,
    }
}

/// The text that the first `used` bytes of a buffer hold into one of so many bytes, with blanks behind it or cut.
fn put_gathered(
    run: &mut RunBytes,
    buffer: &mut [u8],
    used: usize,
    target: CValue,
    size: usize,
) -> Result<(), CFault>
    requires used { used ≤ length buffer.old }
    requires room { HasRoom (length buffer.old) run.old }
    ensures { (text : List ℕ) → Holds text buffer.old used → Stores (λ all. arguments.text_stored all target (arguments.fitted size text)) run.old run.new result }
{
    if buffer.len() < size {
        return Err(too_long(run, target));
    }
    pad_gathered(buffer, used, size);
    run.put_text(target, &buffer[..size])
}

/// The text that is assigned, behind the length of the one that it is assigned to.
fn assigned_text(
    run: &RunBytes,
    source: CValue,
    target_length: CValue,
    source_length: CValue,
) -> Result<(usize, &[u8]), CFault>
    ensures { answered (λ given. (given.0, given.1.now)) result ≡ found.assigned_text run.now source target_length source_length }
{
    let size = length_from(target_length)?;
    let count = length_from(source_length)?;
    let text = run.text(source, count)?;
    Ok((size, text))
}

/// Assigns the second text to the first, with blanks behind it or cut (10.4). The buffer is as long as the largest object.
///
/// # Errors
/// `Kind` for a length that is no number and `Library` for a negative one; what `RunBytes::text` answers of the source, and
/// `RunBytes::put_text` of the target. Nothing is stored then.
pub fn s_copy(
    run: &mut RunBytes,
    buffer: &mut [u8],
    target: CValue,
    source: CValue,
    target_length: CValue,
    source_length: CValue,
) -> Result<(), CFault>
    requires { HasRoom (length buffer.old) run.old }
    ensures { Answers (λ done. Void) builtin.s_copy (target ∷ source ∷ target_length ∷ source_length ∷ []) run.old run.new result }
{
    match assigned_text(run, source, target_length, source_length) {
        Ok((size, text)) => {
            if buffer.len() < size {
                return Err(too_long(run, target));
            }
            copy_text(&mut buffer[..size], text);
            run.put_text(target, &buffer[..size])
        }
        Err(fault) => Err(fault),
    }
}

/// The piece of a concatenation whose address and length stand at two places.
fn piece(run: &RunBytes, address: CValue, length: CValue) -> Result<&[u8], CFault>
    ensures { answered (λ text. text.now) result ≡ piece_at run.now address length }
{
    let held = run.fetch(address, AccessType::Pointer(PointedType::Char))?;
    let number = number_through(run, length)?;
    let size = count_from(number)?;
    run.text(held.value, size)
}

/// A pointer to what stands so many bytes or values behind.
fn shifted(pointer: CValue, distance: usize) -> CValue
    requires { CanShift distance pointer }
    ensures { result ≡ arguments.shifted distance pointer }
{
    match pointer {
        CValue::Pointer { object, offset } => CValue::Pointer {
            object,
            offset: offset + distance,
        },
        other => other,
    }
}

/// The pieces of a concatenation end to end into a buffer, as far as they fit. It gives how many bytes of the buffer they take.
fn collect(
    run: &RunBytes,
    buffer: &mut [u8],
    addresses: CValue,
    lengths: CValue,
    count: usize,
) -> Result<usize, CFault>
    requires { HasRoom (length buffer.old) run.now }
    ensures { Collects (texts.pieces run.now addresses lengths count) buffer.new result }
{
    let mut used = 0;
    let mut address = addresses;
    let mut length = lengths;
    for _ in 0..count {
        match piece(run, address, length) {
            Ok(text) => {
                used = append_piece(buffer, used, text);
                address = shifted(address, 1);
                length = shifted(length, 4);
            }
            Err(fault) => return Err(fault),
        }
    }
    Ok(used)
}

/// How many pieces a concatenation has, and the length of the text that it is assigned to.
fn piece_counts(
    run: &RunBytes,
    count: CValue,
    target_length: CValue,
) -> Result<(usize, usize), CFault>
    ensures { answered (λ counts. (counts.0, counts.1)) result ≡ found.piece_counts run.now count target_length }
{
    let number = number_through(run, count)?;
    let pieces = count_from(number)?;
    let size = length_from(target_length)?;
    Ok((pieces, size))
}

/// Assigns the pieces whose addresses and lengths stand one behind the other, end to end, to the first text, with blanks behind them or
/// cut (6.2.2.2 and 10.4). The buffer is as long as the largest object.
///
/// # Errors
/// `Kind` for a count, an address or a length of another kind and `Library` for a negative count or length; what `RunBytes` answers of
/// the pieces and of the target. Nothing is stored then.
pub fn s_cat(
    run: &mut RunBytes,
    buffer: &mut [u8],
    target: CValue,
    addresses: CValue,
    lengths: CValue,
    count: CValue,
    target_length: CValue,
) -> Result<(), CFault>
    requires { HasRoom (length buffer.old) run.old }
    ensures { Answers (λ done. Void) builtin.s_cat (target ∷ addresses ∷ lengths ∷ count ∷ target_length ∷ []) run.old run.new result }
{
    match piece_counts(run, count, target_length) {
        Ok((pieces, size)) => match collect(run, buffer, addresses, lengths, pieces) {
            Ok(used) => put_gathered(run, buffer, used, target, size),
            Err(fault) => Err(fault),
        },
        Err(fault) => Err(fault),
    }
}
