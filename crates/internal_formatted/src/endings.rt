//! The end of an output (ANSI X3.9-1978, 12.9.5.2 and 13.3).

ghost use Rattle.std.specs.Prelude.{◌≡◌};
ghost use Rattle.edit_rules.specs.Walks.{StandsIn};
ghost use Rattle.internal_formatted.specs.Closing.{Closes, Finishes};
ghost use Rattle.internal_formatted.specs.Storing.{held};

use crate::acts::{Stop, act};
use edit_rules::FormatWalk;
use formatted_output::{Turn, turn_of};
use formatted_records::RecordSheet;
use internal_output::{FileRecords, write_record};
use run_bytes::RunBytes;

/// Does what the format gives behind the last item.
fn close(
    walk: &mut FormatWalk,
    sheet: &mut RecordSheet,
    file: &mut FileRecords,
    run: &mut RunBytes,
    format: &[u8],
) -> Result<(), Stop>
    requires { StandsIn walk.old format.now }
    ensures { Closes format.now walk.old sheet.old sheet.new (held file.old run.old) (held file.new run.new) result }
{
    'edits: loop {
        let edit = walk.next(format, false);
        match turn_of(edit) {
            Turn::Acts => {
                if let Err(stop) = act(sheet, file, run, format, edit) {
                    return Err(stop);
                }
            }
            _ => return Ok(()),
        }
    }
}

/// Closes an output: its last record is stored.
pub(crate) fn finish(
    walk: &mut FormatWalk,
    sheet: &mut RecordSheet,
    file: &mut FileRecords,
    run: &mut RunBytes,
    format: &[u8],
) -> Result<(), Stop>
    requires { StandsIn walk.old format.now }
    ensures { Finishes format.now walk.old sheet.old (held file.old run.old) (held file.new run.new) result }
{
    match close(walk, sheet, file, run, format) {
        Ok(()) => match write_record(file, run, sheet.record()) {
            Ok(()) => Ok(()),
            Err(refusal) => Err(Stop::Refused(refusal)),
        },
        Err(stop) => Err(stop),
    }
}
