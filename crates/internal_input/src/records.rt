//! The records of an internal file, as an input reads them (ANSI X3.9-1978, 12.2.5, 12.9.5.1 and 13.6.1).

ghost use Rattle.std.specs.Prelude.{List, ℕ};
ghost use Rattle.edit_rules.specs.Reader.{StandsIn};
ghost use Rattle.internal_output.specs.Files.{file_of};
ghost use Rattle.internal_input.specs.Fetching.{ReadsInto, ReadsNext};

use internal_output::{FileRecords, put_behind};
use internal_records::{RecordEnd, next_record};
use listed_input::{LONGEST, RecordInReading};
use run_bytes::RunBytes;

/// Reads the next record of a file into the front of a line.
pub(crate) fn fetch(
    run: &RunBytes,
    file: &mut FileRecords,
    line: &mut [u8; LONGEST],
) -> Result<usize, RecordEnd>
    ensures { ReadsInto run.now line.new (file_of file.old) (file_of file.new) result }
{
    match next_record(run, file) {
        Ok(text) => {
            put_behind(line, 0, text);
            Ok(text.len())
        }
        Err(end) => Err(end),
    }
}

/// Reads the next record of a file in place of the one that is being read. It stays where there is none.
pub(crate) fn read_next(
    reading: &mut RecordInReading,
    file: &mut FileRecords,
    run: &RunBytes,
) -> Result<(), RecordEnd>
    requires { (line : List ℕ) → StandsIn reading.old.reader line }
    ensures { ReadsNext run.now reading.old reading.new (file_of file.old) (file_of file.new) result }
{
    let mut line = [b' '; LONGEST];
    match fetch(run, file, &mut line) {
        Ok(used) => {
            *reading = RecordInReading {
                reader: reading.reader,
                line,
                used,
            };
            Ok(())
        }
        Err(end) => Err(end),
    }
}
