//! Values into the record in the making, and complete records into the internal file (ANSI X3.9-1978, 13.6.2).

ghost use Rattle.std.specs.Prelude.{◌≡◌, ◌*◌, length};
ghost use Rattle.edit_rules.specs.Writer.{value_of};
ghost use Rattle.listed_output.specs.Kinds.{kind_shown};
ghost use Rattle.internal_output.specs.Items.{values_in};
ghost use Rattle.internal_output.specs.Putting.{PutsValue, PutsItems};

use crate::files::{FileRecords, RecordRefusal, write_record};
use crate::items::item_in;
use edit_rules::{ListPut, ListValue};
use listed_output::{ItemList, RecordInMaking};
use run_bytes::RunBytes;

/// Puts a value behind those before it, and stores the records that it completes. The record in the making stays as it was where one is
/// not stored.
fn put_value(
    making: &mut RecordInMaking,
    file: &mut FileRecords,
    run: &mut RunBytes,
    value: ListValue<'_>,
) -> Result<(), RecordRefusal>
    ensures { PutsValue (value_of value.entry) making.old.writer making.old.line making.new.writer making.new.line file.old run.old file.new run.new result }
{
    let mut writer = making.writer;
    let mut line = making.line;
    while let ListPut::Full(used) = writer.put(value, &mut line) {
        if let Err(refusal) = write_record(file, run, &line[..used]) {
            return Err(refusal);
        }
    }
    *making = RecordInMaking { writer, line };
    Ok(())
}

/// Puts the items that some bytes hold behind the values so far, each before the next, and stores the records that they complete.
pub(crate) fn put_items(
    making: &mut RecordInMaking,
    file: &mut FileRecords,
    run: &mut RunBytes,
    list: ItemList,
    bytes: &[u8],
) -> Result<(), RecordRefusal>
    requires { length bytes.now ≡ list.count * list.size }
    ensures { PutsItems (values_in (kind_shown list.kind) list.size list.count bytes.now) making.old.writer making.old.line making.new.writer making.new.line file.old run.old file.new run.new result }
{
    let mut done = 0;
    for _ in 0..list.count {
        let value = item_in(list.kind, &bytes[done..done + list.size]);
        if let Err(refusal) = put_value(making, file, run, value) {
            return Err(refusal);
        }
        done += list.size;
    }
    Ok(())
}
