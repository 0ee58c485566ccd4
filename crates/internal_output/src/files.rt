//! An internal file and the records that are stored in it (ANSI X3.9-1978, 12.2.5 and 12.9.5.2).

ghost use Rattle.std.specs.Prelude.{◌≡◌, ℕ, List, ◌+◌, ◌*◌, ◌^◌, ◌<◌, ◌≤◌, [], ◌∷◌, length, replicate};
ghost use Rattle.c_tree.specs.declared.outcome.CValue.TheVariants.{Pointer};
ghost use Rattle.c_tree.specs.Faults.{failing};
ghost use Rattle.c_tree.specs.LibraryArguments.{fitted, text_stored};
ghost use Rattle.internal_output.specs.Files.{IsOffset, Puts, Fills, refusal_answer};

use c_tree::outcome::{CFault, CValue};
use listed_output::COLUMNS;
use run_bytes::RunBytes;
use unit_answers::{CallEnd, numbered};

/// The records of an internal file, and how many of them are behind.
#[derive(Clone, Copy)]
pub struct FileRecords {
    /// The object in which the first record stands.
    pub object: usize,
    /// Where the first record begins.
    pub offset: usize,
    /// The bytes of a record.
    pub size: usize,
    /// How many records there are.
    pub count: usize,
    /// How many of them are behind.
    pub position: usize,
}

/// Why a record is not stored.
#[derive(Clone, Copy)]
pub enum RecordRefusal {
    /// The file is used up.
    UsedUp,
    /// The record is longer than those of the file.
    TooLong,
    /// By a fault of the subset.
    Faulty(CFault),
}

/// What a call answers whose record is not stored: -1 where the file is used up, and 5 where the record is too long.
///
/// # Errors
/// The fault of the file; the end of the run by that number, where the list of the start does not ask for it.
pub fn refused(refusal: RecordRefusal, on_error: i32, on_end: i32) -> Result<i32, CallEnd>
    ensures { result ≡ refusal_answer refusal on_error on_end }
{
    match refusal {
        RecordRefusal::UsedUp => numbered(-1, on_error, on_end),
        RecordRefusal::TooLong => numbered(5, on_error, on_end),
        RecordRefusal::Faulty(fault) => Err(CallEnd::Fault(fault)),
    }
}

/// Where the next record of a file begins, if the offset has 64 bits.
pub fn next_offset(file: FileRecords) -> Option<usize>
    ensures { IsOffset result (file.offset + file.position * file.size) }
{
    match file.position.checked_mul(file.size) {
        Some(distance) => file.offset.checked_add(distance),
        None => None,
    }
}

/// So many bytes behind an offset, if the sum has 64 bits.
fn further(at: Option<usize>, distance: usize) -> Option<usize>
    ensures { (offset : ℕ) → IsOffset at offset → IsOffset result (offset + distance) }
{
    match at {
        Some(offset) => offset.checked_add(distance),
        None => None,
    }
}

/// The fault of a text behind all that objects hold.
fn past_all(run: &RunBytes, object: usize) -> CFault
    ensures { (offset : ℕ) → 2 ^ 64 ≤ offset → (text : List ℕ) → 0 < length text → text_stored run.now (Pointer object offset) text ≡ failing result }
{
    match run.extent(object) {
        Some(_) => match run.held_type(object) {
            Some(_) => CFault::Kind,
            None => CFault::Outside,
        },
        None => CFault::Outside,
    }
}

/// Stores a text at an offset of an object, which may have more than 64 bits.
fn put_piece(
    run: &mut RunBytes,
    object: usize,
    at: Option<usize>,
    piece: &[u8],
) -> Result<(), CFault>
    ensures { (offset : ℕ) → IsOffset at offset → Puts (text_stored run.old (Pointer object offset) piece.now) run.old run.new result }
{
    match at {
        Some(offset) => run.put_text(CValue::Pointer { object, offset }, piece),
        None => {
            if piece.is_empty() {
                Ok(())
            } else {
                Err(past_all(run, object))
            }
        }
    }
}

/// Stores blanks, no more than a record in the making has columns, at an offset of an object.
fn put_few_blanks(
    run: &mut RunBytes,
    object: usize,
    at: Option<usize>,
    count: usize,
) -> Result<(), CFault>
    requires { count ≤ 80 }
    ensures { (offset : ℕ) → IsOffset at offset → Puts (text_stored run.old (Pointer object offset) (replicate count 32)) run.old run.new result }
{
    let blanks = [b' '; COLUMNS];
    put_piece(run, object, at, &blanks[..count])
}

/// Stores so many blanks at an offset of an object.
fn put_blanks(
    run: &mut RunBytes,
    object: usize,
    at: Option<usize>,
    count: usize,
) -> Result<(), CFault>
    ensures { (offset : ℕ) → IsOffset at offset → Puts (text_stored run.old (Pointer object offset) (replicate count 32)) run.old run.new result }
{
    let mut place = at;
    let mut left = count;
    while left > 0 {
        let size = left.min(COLUMNS);
        if let Err(fault) = put_few_blanks(run, object, place, size) {
            return Err(fault);
        }
        place = further(place, size);
        left -= size;
    }
    Ok(())
}

/// Stores a record with blanks behind it up to a length.
fn put_fitted(
    run: &mut RunBytes,
    object: usize,
    at: Option<usize>,
    size: usize,
    record: &[u8],
) -> Result<(), CFault>
    requires { length record.now ≤ size }
    ensures { (offset : ℕ) → IsOffset at offset → Puts (text_stored run.old (Pointer object offset) (fitted size record.now)) run.old run.new result }
{
    match put_piece(run, object, at, record) {
        Ok(()) => put_blanks(run, object, further(at, record.len()), size - record.len()),
        Err(fault) => Err(fault),
    }
}

/// Stores the next record of a file, with blanks behind it up to the length of a record.
///
/// # Errors
/// Why it is not stored; at a fault a part of it may stand in the file.
pub fn write_record(
    file: &mut FileRecords,
    run: &mut RunBytes,
    record: &[u8],
) -> Result<(), RecordRefusal>
    ensures { Fills (record.now ∷ []) file.old run.old file.new run.new result }
{
    if file.count <= file.position {
        return Err(RecordRefusal::UsedUp);
    }
    if file.size < record.len() {
        return Err(RecordRefusal::TooLong);
    }
    match put_fitted(run, file.object, next_offset(*file), file.size, record) {
        Ok(()) => {
            file.position += 1;
            Ok(())
        }
        Err(fault) => Err(RecordRefusal::Faulty(fault)),
    }
}
