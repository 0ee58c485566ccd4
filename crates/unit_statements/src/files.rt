//! OPEN and CLOSE (ANSI X3.9-1978, 12.10.1 and 12.10.2).

ghost use Rattle.std.specs.Prelude.{◌≡◌, ◌≤◌, length, take, option_map};
ghost use Rattle.f2c_outside.specs.Rows.{rows_of};
ghost use Rattle.f2c_outside.specs.Table.{OpenedUnit};
ghost use Rattle.f2c_outside.specs.Meaning.{MeansOpening, units_of};
ghost use Rattle.run_state.specs.Units as meaning;
ghost use Rattle.c_tree.specs.Builtins as builtin;
ghost use Rattle.c_tree.specs.LibraryUnits as statements;
ghost use Rattle.control_lists.specs.Files.{closing, name_shown};
ghost use Rattle.unit_answers.specs.Answers.{IfDevice};
ghost use Rattle.unit_statements.specs.Statements.{AnswersStatement, NamesUnit};

use crate::statement_ends::{answer, close_answer};
use c_tree::outcome::CValue;
use control_lists::{close_list, open_list};
use f2c_outside::devices::Device;
use f2c_outside::unit_table::UnitTable;
use itoa::Buffer;
use run_bytes::RunBytes;
use run_state::UnitRefusal;
use unit_answers::CallEnd;

/// The bytes of the longest name of a unit's file.
const LONGEST: usize = 16;

/// What the name of a unit's file begins with.
const FRONT: usize = 5;

/// The name of the file of a unit for which none is given, at the front of `into`; gives its length.
fn name_of_unit(unit: i32, into: &mut [u8]) -> usize
    requires { length into.old ≡ 16 }
    ensures within { result ≤ 16 }
    ensures name { take result into.new ≡ statements.file_of_unit unit }
{
    let mut buffer = Buffer::new();
    let digits = buffer.format(unit).as_bytes();
    let end = FRONT + digits.len();
    into[..FRONT].copy_from_slice(b"fort.");
    into[FRONT..end].copy_from_slice(digits);
    end
}

/// Opens the file of a unit that has this name, or where none is given that of the unit.
fn open_file(
    units: &mut UnitTable,
    unit: i32,
    name: Option<&[u8]>,
    zero_blanks: bool,
) -> Result<(), UnitRefusal>
    requires { Unit {0} }
    ensures did { OpenedUnit unit (name_shown unit (option_map (λ name. name.now) name.entry)) zero_blanks (rows_of (λ b. (⟦<dyn Device as Device>⟧ b.vtable).device_state b.value) units.old) (rows_of (λ b. (⟦<dyn Device as Device>⟧ b.vtable).device_state b.value) units.new) result }
    ensures means { MeansOpening result (meaning.open_unit unit (name_shown unit (option_map (λ name. name.now) name.entry)) zero_blanks (units_of (rows_of (λ b. (⟦<dyn Device as Device>⟧ b.vtable).device_state b.value) units.old)))
        (rows_of (λ b. (⟦<dyn Device as Device>⟧ b.vtable).device_state b.value) units.old) (rows_of (λ b. (⟦<dyn Device as Device>⟧ b.vtable).device_state b.value) units.new) }
{
    match name {
        Some(name) => units.open_unit(unit, name, zero_blanks),
        None => {
            let mut own = [b' '; LONGEST];
            let used = name_of_unit(unit, &mut own);
            units.open_unit(unit, &own[..used], zero_blanks)
        }
    }
}

/// OPEN (12.10.1): connects the first file of the name that can be opened. It answers 0 or the number of an error.
///
/// # Errors
/// The first fault of the list; the end of the run by a number for which the list does not ask. No device is called.
pub fn f_open(run: &RunBytes, units: &mut UnitTable, pointer: CValue) -> Result<i32, CallEnd>
    requires { Unit {0} }
    ensures answers { AnswersStatement builtin.f_open run.now pointer (rows_of (λ b. (⟦<dyn Device as Device>⟧ b.vtable).device_state b.value) units.old) (rows_of (λ b. (⟦<dyn Device as Device>⟧ b.vtable).device_state b.value) units.new) result }
    ensures unit { IfDevice result (λ unit. ⊥) (Unit {0}) }
{
    match open_list(run, pointer) {
        Ok(list) => {
            let done = open_file(units, list.unit, list.name, list.zero_blanks);
            answer(list.unit, list.on_error, done)
        }
        Err(fault) => Err(CallEnd::Fault(fault)),
    }
}

/// CLOSE (12.10.2): the unit is no longer connected, and its file stays; a unit that is not connected is closed already. It answers 0.
///
/// # Errors
/// The first fault of the list; the unit where its device failed, which then stays connected.
pub fn f_clos(run: &RunBytes, units: &mut UnitTable, pointer: CValue) -> Result<i32, CallEnd>
    requires { Unit {0} }
    ensures answers { AnswersStatement builtin.f_clos run.now pointer (rows_of (λ b. (⟦<dyn Device as Device>⟧ b.vtable).device_state b.value) units.old) (rows_of (λ b. (⟦<dyn Device as Device>⟧ b.vtable).device_state b.value) units.new) result }
    ensures unit { IfDevice result (λ unit. NamesUnit (closing run.now pointer) unit) (Unit {0}) }
{
    match close_list(run, pointer) {
        Ok(list) => close_answer(list.unit, list.on_error, units.close_unit(list.unit)),
        Err(fault) => Err(CallEnd::Fault(fault)),
    }
}
