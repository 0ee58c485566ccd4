//! The items of an output, each under the descriptor that it gets (ANSI X3.9-1978, 12.8.2, 12.9.5.2 and 13.3).

ghost use Rattle.std.specs.Prelude.{◌≡◌};
ghost use Rattle.edit_rules.specs.Walks.{StandsIn};
ghost use Rattle.internal_formatted.specs.Reaching.{Reaches};
ghost use Rattle.internal_formatted.specs.Putting.{PutsItem, PutsItems};
ghost use Rattle.internal_formatted.specs.Storing.{held};

use crate::acts::{Stop, act, stop_by};
use crate::calls::InternalFormatted;
use c_tree::outcome::CValue;
use edit_rules::FormatWalk;
use formatted_output::{ItemList, Turn, behind, turn_of, value_under};
use formatted_records::{Field, RecordSheet};
use internal_output::FileRecords;
use run_bytes::RunBytes;

/// Does what the format gives before the descriptor of the next item, and gives that descriptor.
fn next_field(
    walk: &mut FormatWalk,
    sheet: &mut RecordSheet,
    file: &mut FileRecords,
    run: &mut RunBytes,
    format: &[u8],
) -> Result<Field, Stop>
    requires { StandsIn walk.old format.now }
    ensures { Reaches format.now walk.old walk.new sheet.old sheet.new (held file.old run.old) (held file.new run.new) result }
{
    'edits: loop {
        let edit = walk.next(format, true);
        match turn_of(edit) {
            Turn::Takes(field) => return Ok(field),
            Turn::Acts => {
                if let Err(stop) = act(sheet, file, run, format, edit) {
                    return Err(stop);
                }
            }
            Turn::Ends => return Err(Stop::Number(4)),
        }
    }
}

/// Puts one item: what the format gives before its descriptor is done, then the item is fetched and written in its field.
fn put_item(
    output: &mut InternalFormatted,
    run: &mut RunBytes,
    format: &[u8],
    pointer: CValue,
    size: usize,
) -> Result<(), Stop>
    requires { StandsIn output.old.walk format.now }
    ensures { PutsItem format.now output.old output.new pointer size run.old run.new result }
{
    match next_field(
        &mut output.walk,
        &mut output.sheet,
        &mut output.file,
        run,
        format,
    ) {
        Ok(field) => match value_under(run, field, pointer, size) {
            Ok(value) => match output.sheet.field(field, value) {
                Ok(()) => Ok(()),
                Err(halt) => Err(stop_by(halt)),
            },
            Err(fault) => Err(Stop::Fault(fault)),
        },
        Err(stop) => Err(stop),
    }
}

/// Puts so many items that stand one behind the other, each before the next.
pub(crate) fn put_items(
    output: &mut InternalFormatted,
    run: &mut RunBytes,
    format: &[u8],
    list: ItemList,
    first: CValue,
) -> Result<(), Stop>
    requires { StandsIn output.old.walk format.now }
    ensures { PutsItems format.now output.old output.new list.count list.size first run.old run.new result }
{
    let mut pointer = first;
    'items: for _ in 0..list.count {
        match put_item(output, run, format, pointer, list.size) {
            Ok(()) => pointer = behind(run, pointer, list.size),
            Err(stop) => return Err(stop),
        }
    }
    Ok(())
}
