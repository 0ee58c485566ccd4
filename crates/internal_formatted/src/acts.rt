//! The edits that take no item, and the records that they complete (ANSI X3.9-1978, 13.5).

ghost use Rattle.std.specs.Prelude.{◌≡◌, Some};
ghost use Rattle.c_tree.specs.TransferOutput.{halt_number};
ghost use Rattle.edit_rules.specs.edit_meaning.Formats.{Control, NextRecord, Act};
ghost use Rattle.edit_rules.specs.edit_meaning.EditedRecords.{with_control};
ghost use Rattle.edit_rules.specs.PartPlaces.{edit_in};
ghost use Rattle.formatted_records.specs.Sheets as sheets;
ghost use Rattle.internal_formatted.specs.Acting.{Does};
ghost use Rattle.internal_formatted.specs.Storing.{held};

use c_tree::outcome::CFault;
use edit_rules::Edit;
use formatted_output::edit_record;
use formatted_records::{Halt, RecordSheet};
use internal_output::{FileRecords, RecordRefusal, write_record};
use run_bytes::RunBytes;

/// Why an output goes no further.
#[derive(Clone, Copy)]
pub(crate) enum Stop {
    /// Its record or its format halts it, by the number of an error.
    Number(i32),
    /// A record is not stored.
    Refused(RecordRefusal),
    /// An item has a fault.
    Fault(CFault),
}

/// The number of the error by which a record halts an output.
pub(crate) fn stop_by(halt: Halt) -> Stop
    ensures { result ≡ Stop.Number (halt_number (sheets.halt_of halt)) }
{
    match halt {
        Halt::PastColumns => Stop::Number(5),
        Halt::EndOfRecords => Stop::Number(-1),
        Halt::OtherType => Stop::Number(4),
    }
}

/// Stores the record in the making, and begins the next one.
fn next_record(
    sheet: &mut RecordSheet,
    file: &mut FileRecords,
    run: &mut RunBytes,
) -> Result<(), Stop>
    ensures { Does (λ page. with_control page NextRecord) sheet.old sheet.new (held file.old run.old) (held file.new run.new) result }
{
    match write_record(file, run, sheet.record()) {
        Ok(()) => match sheet.next_record() {
            Ok(()) => Ok(()),
            Err(halt) => Err(stop_by(halt)),
        },
        Err(refusal) => Err(Stop::Refused(refusal)),
    }
}

/// Does an edit that takes no item.
pub(crate) fn act(
    sheet: &mut RecordSheet,
    file: &mut FileRecords,
    run: &mut RunBytes,
    format: &[u8],
    edit: Edit,
) -> Result<(), Stop>
    ensures { (control : Control) → edit_in format.now edit ≡ Some (Act control) →
        Does (λ page. with_control page control) sheet.old sheet.new (held file.old run.old) (held file.new run.new) result }
{
    match edit {
        Edit::NextRecord => next_record(sheet, file, run),
        _ => match edit_record(sheet, format, edit) {
            Ok(()) => Ok(()),
            Err(halt) => Err(stop_by(halt)),
        },
    }
}
