//! The end of an input (ANSI X3.9-1978, 12.9.5.1 and 13.3).

ghost use Rattle.edit_rules.specs.Walks.{StandsIn};
ghost use Rattle.internal_output.specs.Files.{file_of};
ghost use Rattle.internal_formatted_input.specs.Reaching.{Closes};

use crate::acts::{Stop, act};
use edit_rules::FormatWalk;
use formatted_output::{Turn, turn_of};
use internal_output::FileRecords;
use run_bytes::RunBytes;
use taken_records::RecordInput;

/// Does what the format gives behind the last item. The rest of the record is left.
pub(crate) fn close(
    walk: &mut FormatWalk,
    record: &mut RecordInput,
    file: &mut FileRecords,
    run: &RunBytes,
    format: &[u8],
) -> Result<(), Stop>
    requires { StandsIn walk.old format.now }
    ensures { Closes run.now format.now walk.old record.old record.new (file_of file.old) (file_of file.new) result }
{
    'edits: loop {
        let edit = walk.next(format, false);
        match turn_of(edit) {
            Turn::Acts => {
                if let Err(stop) = act(record, file, run, edit) {
                    return Err(stop);
                }
            }
            _ => return Ok(()),
        }
    }
}
