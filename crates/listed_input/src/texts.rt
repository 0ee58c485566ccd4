//! Texts that come in pieces (ANSI X3.9-1978, 13.6.1).

ghost use Rattle.std.specs.Prelude.{◌≡◌, ℕ, ◌+◌, ◌-◌, ◌≤◌, ◌<◌, ◌^◌, min, length, IfOk, slice_get};
ghost use Rattle.item_deeds.specs.Forms.{SameForms};
ghost use Rattle.listed_input.specs.Texts.{IsPast, IsPlaceBehind, PutsPiece, Pads};

use crate::ends::ItemEnd;
use c_tree::outcome::CValue;
use run_bytes::RunBytes;

/// The end of an object.
fn end_of(run: &RunBytes, object: usize) -> usize
    ensures past { (offset : ℕ) → result ≤ offset → IsPast (slice_get run.now object) offset }
    ensures small { result < 2 ^ 63 }
{
    match run.extent(object) {
        Some(extent) => extent,
        None => 0,
    }
}

/// A pointer to what stands so many bytes behind, or to the end of its object where 64 bits do not tell that offset: nothing can be stored
/// at either.
pub(crate) fn place_behind(run: &RunBytes, pointer: CValue, distance: usize) -> CValue
    ensures { IsPlaceBehind run.now distance pointer result }
{
    match pointer {
        CValue::Pointer { object, offset } => match offset.checked_add(distance) {
            Some(offset) => CValue::Pointer { object, offset },
            None => CValue::Pointer {
                object,
                offset: end_of(run, object),
            },
        },
        other => other,
    }
}

/// Stores a piece of a text behind the bytes that are done, as far as its item holds it, and answers how many bytes are done then.
pub(crate) fn put_piece(
    run: &mut RunBytes,
    pointer: CValue,
    size: usize,
    done: usize,
    piece: &[u8],
) -> Result<usize, ItemEnd>
    requires { done ≤ size }
    ensures puts { PutsPiece pointer size done piece.now run.old run.new result }
    ensures grows { IfOk result (λ behind. behind ≡ done + min (size - done) (length piece.now)) }
    ensures forms { SameForms run.old run.new }
{
    let count = usize::min(size - done, piece.len());
    let place = place_behind(run, pointer, done);
    match run.put_text(place, &piece[..count]) {
        Ok(()) => Ok(done + count),
        Err(fault) => Err(ItemEnd::Fault(fault)),
    }
}

/// Stores blanks behind the bytes of a text that are done, up to the length of its item.
pub(crate) fn pad(
    run: &mut RunBytes,
    pointer: CValue,
    size: usize,
    done: usize,
) -> Result<(), ItemEnd>
    requires { done ≤ size }
    ensures pads { Pads pointer size done run.old run.new result }
    ensures forms { SameForms run.old run.new }
{
    let blanks = [b' '; 64];
    let mut filled = done;
    while filled < size {
        match put_piece(run, pointer, size, filled, &blanks) {
            Ok(behind) => filled = behind,
            Err(end) => return Err(end),
        }
    }
    Ok(())
}
