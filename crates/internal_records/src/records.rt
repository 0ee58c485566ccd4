//! The next record of an internal file.

ghost use Rattle.std.specs.Prelude.{◌≡◌, ℕ, ◌^◌, ◌≤◌, ◌<◌};
ghost use Rattle.c_tree.specs.declared.outcome.CValue.TheVariants.{Pointer};
ghost use Rattle.c_tree.specs.Faults.{failing};
ghost use Rattle.c_tree.specs.LibraryArguments.{text_at};
ghost use Rattle.c_tree.specs.Transfers.{internal_record};
ghost use Rattle.run_bytes.specs.Answers.{answered};
ghost use Rattle.internal_output.specs.Files.{file_of};
ghost use Rattle.internal_records.specs.Fetching.{Fetches, text_of};

use c_tree::outcome::{CFault, CValue};
use internal_output::{FileRecords, next_offset};
use run_bytes::RunBytes;

/// The bytes that a record may have.
const LONGEST: usize = 1024;

/// Why no record comes next.
#[derive(Clone, Copy)]
pub enum RecordEnd {
    /// By a number: -1 where the file is used up, and 5 where its records are too long.
    Number(i32),
    /// By a fault of the subset.
    Fault(CFault),
}

/// The fault of a text behind all that objects hold.
fn past_all(run: &RunBytes, object: usize) -> CFault
    ensures { (offset count : ℕ) → 2 ^ 64 ≤ offset → 0 < count → text_at run.now (Pointer object offset) count ≡ failing result }
{
    match run.extent(object) {
        Some(_) => match run.held_type(object) {
            Some(_) => CFault::Kind,
            None => CFault::Outside,
        },
        None => CFault::Outside,
    }
}

/// The bytes of the next record of a file.
fn record_text(run: &RunBytes, file: FileRecords) -> Result<&[u8], CFault>
    ensures { answered (λ text. text.now) result ≡ internal_record run.now (file_of file) file.position }
{
    if file.size == 0 {
        return Ok(&[]);
    }
    match next_offset(file) {
        Some(offset) => run.text(
            CValue::Pointer {
                object: file.object,
                offset,
            },
            file.size,
        ),
        None => Err(past_all(run, file.object)),
    }
}

/// The next record of a file, behind which the file is then.
///
/// # Errors
/// Why there is none; the file stays as it was.
pub fn next_record<'a>(run: &'a RunBytes, file: &mut FileRecords) -> Result<&'a [u8], RecordEnd>
    ensures { Fetches run.now (file_of file.old) (file_of file.new) (text_of (λ text. text.now) result) }
{
    if file.count <= file.position {
        return Err(RecordEnd::Number(-1));
    }
    match record_text(run, *file) {
        Ok(text) => {
            if text.len() > LONGEST {
                return Err(RecordEnd::Number(5));
            }
            file.position += 1;
            Ok(text)
        }
        Err(fault) => Err(RecordEnd::Fault(fault)),
    }
}
