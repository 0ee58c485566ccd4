//! Texts that are put together in a buffer, and stored whole (ANSI X3.9-1978, 12.2.5 and 13.6.1).

ghost use Rattle.std.specs.Prelude.{◌≡◌, ◌+◌, ◌-◌, ◌≤◌, ◌++◌, ℕ, List, length, take, replicate};
ghost use Rattle.c_tree.specs.LibraryArguments.{shifted};
ghost use Rattle.item_deeds.specs.Forms.{SameForms};
ghost use Rattle.library_calls.specs.Room.{HasRoom};
ghost use Rattle.internal_input.specs.Texts.{saturated, past_fault, Gathered, StoresPart, StoresWhole};

use c_tree::outcome::{CFault, CValue};
use internal_output::put_behind;
use run_bytes::RunBytes;

/// A pointer to what stands so many bytes behind. An offset of more than 64 bits is the largest of them: an object has no byte at either.
pub(crate) fn place_behind(pointer: CValue, distance: usize) -> CValue
    ensures { result ≡ saturated (shifted distance pointer) }
{
    match pointer {
        CValue::Pointer { object, offset } => CValue::Pointer {
            object,
            offset: offset.saturating_add(distance),
        },
        other => other,
    }
}

/// The fault of a text that is longer than every object.
fn past_all(run: &RunBytes, pointer: CValue) -> CFault
    ensures { result ≡ past_fault run.now pointer }
{
    match pointer {
        CValue::Pointer { object, .. } => match run.held_type(object) {
            Some(_) => CFault::Kind,
            None => CFault::Outside,
        },
        CValue::Null => CFault::Outside,
        _ => CFault::Kind,
    }
}

/// Puts a piece of a text behind the bytes of it that stand at the front of a buffer, as far as its item holds it, and answers how many
/// bytes there are then. A text that is longer than the buffer is only counted.
pub(crate) fn gather(buffer: &mut [u8], size: usize, done: usize, piece: &[u8]) -> usize
    requires { done ≤ size }
    ensures gathers { (text : List ℕ) → Gathered buffer.old size text done → Gathered buffer.new size (text ++ piece.now) result }
    ensures within { result ≤ size }
{
    let count = usize::min(size - done, piece.len());
    if done + count <= buffer.len() {
        put_behind(buffer, done, &piece[..count]);
    }
    done + count
}

/// Puts blanks behind the bytes at the front of a buffer, up to a length.
fn put_blanks(buffer: &mut [u8], done: usize, size: usize)
    requires within { done ≤ size }
    requires fits { size ≤ length buffer.old }
    ensures { take size buffer.new ≡ take done buffer.old ++ replicate (size - done) 32 }
{
    let blanks = [b' '; 64];
    let mut filled = done;
    while filled < size {
        let count = usize::min(size - filled, 64);
        put_behind(buffer, filled, &blanks[..count]);
        filled += count;
    }
}

/// Stores the bytes of a text that its item holds. The buffer is as long as the largest object.
pub(crate) fn store_part(
    run: &mut RunBytes,
    buffer: &[u8],
    pointer: CValue,
    done: usize,
) -> Result<(), CFault>
    requires { HasRoom (length buffer.now) run.old }
    ensures stores { StoresPart buffer.now pointer done run.old run.new result }
    ensures forms { SameForms run.old run.new }
{
    if done <= buffer.len() {
        run.put_text(pointer, &buffer[..done])
    } else {
        Err(past_all(run, pointer))
    }
}

/// Stores a text with blanks behind it, up to the length of its item. The buffer is as long as the largest object.
pub(crate) fn store_whole(
    run: &mut RunBytes,
    buffer: &mut [u8],
    pointer: CValue,
    size: usize,
    done: usize,
) -> Result<(), CFault>
    requires within { done ≤ size }
    requires room { HasRoom (length buffer.old) run.old }
    ensures stores { StoresWhole buffer.old pointer size done run.old run.new result }
    ensures forms { SameForms run.old run.new }
{
    if size <= buffer.len() {
        put_blanks(buffer, done, size);
        run.put_text(pointer, &buffer[..size])
    } else {
        Err(past_all(run, pointer))
    }
}
