//! The edits that take no item, and the records that they come to (ANSI X3.9-1978, 12.9.5.1 and 13.5).

ghost use Rattle.std.specs.Prelude.{◌≡◌, Some, List, ℕ};
ghost use Rattle.c_tree.specs.TransferOutput.{halt_number};
ghost use Rattle.edit_rules.specs.edit_meaning.Formats.{Control, NextRecord, Act};
ghost use Rattle.edit_rules.specs.edit_meaning.TakenRecords.{with_control};
ghost use Rattle.edit_rules.specs.PartPlaces.{edit_in};
ghost use Rattle.internal_output.specs.Files.{file_of};
ghost use Rattle.taken_records.specs.Records.{halt_of};
ghost use Rattle.internal_formatted_input.specs.Acting.{Does};

use c_tree::outcome::CFault;
use edit_rules::Edit;
use internal_output::FileRecords;
use internal_records::RecordEnd;
use run_bytes::RunBytes;
use taken_records::{Halt, RecordInput};

/// Why an input goes no further.
#[derive(Clone, Copy)]
pub(crate) enum Stop {
    /// Its record or its format halts it, or no record comes next, by the number of an error or of the end of the file.
    Number(i32),
    /// An item or a record has a fault.
    Fault(CFault),
}

/// The number of the error by which a record halts an input.
pub(crate) fn stop_by(halt: Halt) -> Stop
    ensures { result ≡ Stop.Number (halt_number (halt_of halt)) }
{
    match halt {
        Halt::PastColumns => Stop::Number(5),
        Halt::TextInFormat => Stop::Number(10),
        Halt::BadField(error) => Stop::Number(i32::from(error.number())),
        Halt::OtherType => Stop::Number(4),
    }
}

/// Comes to the next record of the file.
fn next_record(record: &mut RecordInput, file: &mut FileRecords, run: &RunBytes) -> Result<(), Stop>
    ensures { Does run.now (with_control NextRecord) record.old record.new (file_of file.old) (file_of file.new) result }
{
    match internal_records::next_record(run, file) {
        Ok(line) => {
            record.next_record(line);
            Ok(())
        }
        Err(RecordEnd::Number(number)) => Err(Stop::Number(number)),
        Err(RecordEnd::Fault(fault)) => Err(Stop::Fault(fault)),
    }
}

/// Does an edit that takes no item.
pub(crate) fn act(
    record: &mut RecordInput,
    file: &mut FileRecords,
    run: &RunBytes,
    edit: Edit,
) -> Result<(), Stop>
    ensures { (text : List ℕ) → (control : Control) → edit_in text edit ≡ Some (Act control) →
        Does run.now (with_control control) record.old record.new (file_of file.old) (file_of file.new) result }
{
    match edit {
        Edit::NextRecord => next_record(record, file, run),
        _ => match record.act(edit) {
            Ok(()) => Ok(()),
            Err(halt) => Err(stop_by(halt)),
        },
    }
}
