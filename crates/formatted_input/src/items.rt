//! The items of an input, each under the descriptor that it gets (ANSI X3.9-1978, 12.8.2, 12.9.5.1 and 13.3).

ghost use Rattle.std.specs.Prelude.{OnOk};
ghost use Rattle.f2c_outside.specs.Rows.{rows_of};
ghost use Rattle.edit_rules.specs.Walks.{StandsIn};
ghost use Rattle.item_deeds.specs.Forms.{SameForms};
ghost use Rattle.listed_output.specs.Items.{StandsThere};
ghost use Rattle.formatted_input.specs.Reaching.{Reaches};
ghost use Rattle.formatted_input.specs.Giving.{GivesItem, GivesItems};

use crate::acts::{Stop, act, stop_by};
use crate::calls::FormattedInput;
use c_tree::outcome::CValue;
use edit_rules::FormatWalk;
use f2c_outside::devices::Device;
use f2c_outside::unit_table::UnitTable;
use formatted_output::{ItemList, Turn, behind, turn_of};
use formatted_records::Field;
use run_bytes::RunBytes;
use taken_items::{ItemHalt, take_item};
use taken_records::RecordInput;

/// Does what the format gives before the descriptor of the next item, and gives that descriptor.
fn next_field(
    walk: &mut FormatWalk,
    record: &mut RecordInput,
    units: &mut UnitTable,
    unit: i32,
    format: &[u8],
) -> Result<Field, Stop>
    requires { StandsIn walk.old format.now }
    ensures { Reaches format.now walk.old walk.new unit record.old record.new (rows_of (λ b. (⟦<dyn Device as Device>⟧ b.vtable).device_state b.value) units.old) (rows_of (λ b. (⟦<dyn Device as Device>⟧ b.vtable).device_state b.value) units.new) result }
{
    'edits: loop {
        let edit = walk.next(format, true);
        match turn_of(edit) {
            Turn::Takes(field) => return Ok(field),
            Turn::Acts => {
                if let Err(stop) = act(record, units, unit, format, edit) {
                    return Err(stop);
                }
            }
            Turn::Ends => return Err(Stop::Number(4)),
        }
    }
}

/// Gives one item its value: what the format gives before its descriptor is done, then its field is taken.
fn give_item(
    input: &mut FormattedInput,
    units: &mut UnitTable,
    format: &[u8],
    run: &mut RunBytes,
    pointer: CValue,
    size: usize,
) -> Result<(), Stop>
    requires { StandsIn input.old.walk format.now }
    ensures gives { GivesItem format.now input.old input.new run.old run.new pointer size (rows_of (λ b. (⟦<dyn Device as Device>⟧ b.vtable).device_state b.value) units.old) (rows_of (λ b. (⟦<dyn Device as Device>⟧ b.vtable).device_state b.value) units.new) result }
    ensures there { OnOk result (StandsThere size run.old pointer) }
    ensures forms { SameForms run.old run.new }
{
    match next_field(
        &mut input.walk,
        &mut input.record,
        units,
        input.unit,
        format,
    ) {
        Ok(field) => match take_item(&mut input.record, run, field, pointer, size) {
            Ok(()) => Ok(()),
            Err(ItemHalt::Halts(halt)) => Err(stop_by(halt)),
            Err(ItemHalt::Fault(fault)) => Err(Stop::Fault(fault)),
        },
        Err(stop) => Err(stop),
    }
}

/// Gives so many items that stand one behind the other their values, each before the next.
pub(crate) fn give_items(
    input: &mut FormattedInput,
    units: &mut UnitTable,
    format: &[u8],
    run: &mut RunBytes,
    list: ItemList,
    first: CValue,
) -> Result<(), Stop>
    requires { StandsIn input.old.walk format.now }
    ensures gives { GivesItems format.now input.old input.new run.old run.new list.count list.size first (rows_of (λ b. (⟦<dyn Device as Device>⟧ b.vtable).device_state b.value) units.old) (rows_of (λ b. (⟦<dyn Device as Device>⟧ b.vtable).device_state b.value) units.new) result }
    ensures forms { SameForms run.old run.new }
{
    let mut pointer = first;
    'items: for _ in 0..list.count {
        let next = behind(run, pointer, list.size);
        match give_item(input, units, format, run, pointer, list.size) {
            Ok(()) => pointer = next,
            Err(stop) => return Err(stop),
        }
    }
    Ok(())
}
