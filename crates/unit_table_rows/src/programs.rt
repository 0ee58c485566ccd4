//! Each program calls a unit table, and its contract says how it ends.

ghost use Rattle.std.specs.Prelude.{◌≡◌, ◌≤◌, ◌∷◌, [], true, false, length, drop, None, IfOk, OnOk, IsOk, IsErrOf};
ghost use Rattle.f2c_outside.specs.Rows.{rows_of};
ghost use Rattle.f2c_outside.specs.Table.{is_connected};
ghost use Rattle.unit_table_rows.specs.Ends.{Has, HasDrawer, the_unit, at_record, two_records, two_files, first_file, second_file};

use f2c_outside::devices::{Device, Got};
use f2c_outside::memory_device::MemoryDevice;
use f2c_outside::texts::NoMemory;
use f2c_outside::unit_table::{Closed, UnitTable};
use run_state::UnitRefusal;
use std::alloc::Global;

/// Writes the records `A` and `BC` on unit 3, which has no records, and goes before the first.
pub fn write_two(table: &mut UnitTable) -> Result<(), UnitRefusal>
    requires { Has (rows_of (λ b. (⟦<dyn Device as Device>⟧ b.vtable).device_state b.value) table.old) the_unit (at_record [] 0 false) }
    ensures { OnOk result (Has (rows_of (λ b. (⟦<dyn Device as Device>⟧ b.vtable).device_state b.value) table.new) the_unit (at_record two_records 0 false)) }
{
    table.write_to(3, b"A")?;
    table.write_to(3, b"BC")?;
    table.rewind_unit(3)?;
    Ok(())
}

/// What three reads found.
#[derive(Clone, Copy)]
pub struct Seen {
    /// By the first.
    pub first: Got,
    /// By the second.
    pub second: Got,
    /// By the last.
    pub last: Got,
}

/// Reads both records, and then finds the end.
pub fn read_both(table: &mut UnitTable, into: &mut [u8]) -> Result<Seen, UnitRefusal>
    requires has { Has (rows_of (λ b. (⟦<dyn Device as Device>⟧ b.vtable).device_state b.value) table.old) the_unit (at_record two_records 0 false) }
    requires room { 2 ≤ length into.old }
    ensures first { IfOk result (λ seen. seen.first ≡ Got.Line 1) }
    ensures second { IfOk result (λ seen. seen.second ≡ Got.Line 2) }
    ensures last { IfOk result (λ seen. seen.last ≡ Got.End) }
    ensures has { OnOk result (Has (rows_of (λ b. (⟦<dyn Device as Device>⟧ b.vtable).device_state b.value) table.new) the_unit (at_record two_records 2 true)) }
{
    let first = table.read_from(3, into)?;
    let second = table.read_from(3, into)?;
    let last = table.read_from(3, into)?;
    Ok(Seen {
        first,
        second,
        last,
    })
}

/// Reads the first record: its byte stands in the front of the slice, and what stood behind it stays.
pub fn read_first(table: &mut UnitTable, into: &mut [u8]) -> Result<Got, UnitRefusal>
    requires has { Has (rows_of (λ b. (⟦<dyn Device as Device>⟧ b.vtable).device_state b.value) table.old) the_unit (at_record two_records 0 false) }
    requires room { 1 ≤ length into.old }
    ensures line { IfOk result (λ got. got ≡ Got.Line 1) }
    ensures bytes { OnOk result (into.new ≡ 65 ∷ drop 1 into.old) }
    ensures has { OnOk result (Has (rows_of (λ b. (⟦<dyn Device as Device>⟧ b.vtable).device_state b.value) table.new) the_unit (at_record two_records 1 false)) }
{
    let line = table.read_from(3, into)?;
    Ok(line)
}

/// Reads the second record where `ABC` stands in the slice: then `BCC` stands there.
pub fn read_second(table: &mut UnitTable, into: &mut [u8]) -> Result<Got, UnitRefusal>
    requires has { Has (rows_of (λ b. (⟦<dyn Device as Device>⟧ b.vtable).device_state b.value) table.old) the_unit (at_record two_records 1 false) }
    requires stands { into.old ≡ 65 ∷ 66 ∷ 67 ∷ [] }
    ensures { OnOk result (into.new ≡ 66 ∷ 67 ∷ 67 ∷ []) }
{
    let line = table.read_from(3, into)?;
    Ok(line)
}

/// Reads the second record into a slice that it does not fit: its length is told, the slice stays, and the unit stands behind it.
pub fn read_long(table: &mut UnitTable, into: &mut [u8]) -> Result<Got, UnitRefusal>
    requires has { Has (rows_of (λ b. (⟦<dyn Device as Device>⟧ b.vtable).device_state b.value) table.old) the_unit (at_record two_records 1 false) }
    requires room { length into.old ≡ 1 }
    ensures long { IfOk result (λ got. got ≡ Got.Long 2) }
    ensures slice { OnOk result (into.new ≡ into.old) }
    ensures has { OnOk result (Has (rows_of (λ b. (⟦<dyn Device as Device>⟧ b.vtable).device_state b.value) table.new) the_unit (at_record two_records 2 false)) }
{
    let got = table.read_from(3, into)?;
    Ok(got)
}

/// REWIND clears a standing end mark, and BACKSPACE before the first record does nothing.
pub fn rewind_and_back(table: &mut UnitTable) -> Result<(), UnitRefusal>
    requires { Has (rows_of (λ b. (⟦<dyn Device as Device>⟧ b.vtable).device_state b.value) table.old) the_unit (at_record two_records 2 true) }
    ensures { OnOk result (Has (rows_of (λ b. (⟦<dyn Device as Device>⟧ b.vtable).device_state b.value) table.new) the_unit (at_record two_records 0 false)) }
{
    table.rewind_unit(3)?;
    table.back_unit(3)?;
    Ok(())
}

/// What was answered behind the endfile record.
#[derive(Clone, Copy)]
pub struct Refused {
    /// To a record.
    pub written: Result<(), UnitRefusal>,
    /// To a second endfile record.
    pub ended: Result<(), UnitRefusal>,
}

/// Behind the endfile record nothing is written, and BACKSPACE clears the end mark alone.
pub fn behind_the_end(table: &mut UnitTable) -> Result<Refused, UnitRefusal>
    requires { Has (rows_of (λ b. (⟦<dyn Device as Device>⟧ b.vtable).device_state b.value) table.old) the_unit (at_record two_records 2 true) }
    ensures written { IfOk result (λ refused. IsErrOf refused.written UnitRefusal.PastEnd) }
    ensures ended { IfOk result (λ refused. IsErrOf refused.ended UnitRefusal.PastEnd) }
    ensures has { OnOk result (Has (rows_of (λ b. (⟦<dyn Device as Device>⟧ b.vtable).device_state b.value) table.new) the_unit (at_record two_records 2 false)) }
{
    let written = table.write_to(3, b"D");
    let ended = table.end_unit(3);
    table.back_unit(3)?;
    Ok(Refused { written, ended })
}

/// ENDFILE behind the first record cuts off the second, and CLOSE counts the one that is left.
pub fn cut_and_close(table: &mut UnitTable) -> Result<Closed, UnitRefusal>
    requires { Has (rows_of (λ b. (⟦<dyn Device as Device>⟧ b.vtable).device_state b.value) table.old) the_unit (at_record two_records 2 false) }
    ensures count { IfOk result (λ closed. closed.records ≡ 1) }
    ensures has { OnOk result (Has (rows_of (λ b. (⟦<dyn Device as Device>⟧ b.vtable).device_state b.value) table.new) the_unit None) }
{
    table.back_unit(3)?;
    table.end_unit(3)?;
    let closed = table.close_unit(3)?;
    Ok(closed)
}

/// What each call on a unit answered.
#[derive(Clone, Copy)]
pub struct Answers {
    /// To a read.
    pub read: Result<Got, UnitRefusal>,
    /// To a record.
    pub written: Result<(), UnitRefusal>,
    /// To BACKSPACE.
    pub back: Result<(), UnitRefusal>,
    /// To REWIND.
    pub rewound: Result<(), UnitRefusal>,
    /// To ENDFILE.
    pub ended: Result<(), UnitRefusal>,
    /// To CLOSE.
    pub closed: Result<Closed, UnitRefusal>,
}

/// Each call on a unit that is not connected is refused for that, and nothing changes.
pub fn not_connected(table: &mut UnitTable, into: &mut [u8]) -> Answers
    requires { is_connected the_unit (rows_of (λ b. (⟦<dyn Device as Device>⟧ b.vtable).device_state b.value) table.old) ≡ false }
    ensures read { IsErrOf result.read UnitRefusal.NotConnected }
    ensures written { IsErrOf result.written UnitRefusal.NotConnected }
    ensures back { IsErrOf result.back UnitRefusal.NotConnected }
    ensures rewound { IsErrOf result.rewound UnitRefusal.NotConnected }
    ensures ended { IsErrOf result.ended UnitRefusal.NotConnected }
    ensures closed { IsErrOf result.closed UnitRefusal.NotConnected }
    ensures kept { rows_of (λ b. (⟦<dyn Device as Device>⟧ b.vtable).device_state b.value) table.new ≡ rows_of (λ b. (⟦<dyn Device as Device>⟧ b.vtable).device_state b.value) table.old }
{
    let read = table.read_from(3, into);
    let written = table.write_to(3, b"A");
    let back = table.back_unit(3);
    let rewound = table.rewind_unit(3);
    let ended = table.end_unit(3);
    let closed = table.close_unit(3);
    Answers {
        read,
        written,
        back,
        rewound,
        ended,
        closed,
    }
}

/// What OPEN answered.
#[derive(Clone, Copy)]
pub struct Opened {
    /// For a name that no file has.
    pub other: Result<(), UnitRefusal>,
    /// For the name that both files have.
    pub opened: Result<(), UnitRefusal>,
    /// For the same unit again.
    pub again: Result<(), UnitRefusal>,
    /// Whether blanks are then zeros on the unit.
    pub zeros: bool,
}

/// The first of two files of one name is opened, and the second stays in the drawer.
pub fn open_first(table: &mut UnitTable) -> Opened
    requires { HasDrawer (rows_of (λ b. (⟦<dyn Device as Device>⟧ b.vtable).device_state b.value) table.old) None two_files }
    ensures other { IsErrOf result.other UnitRefusal.NotOffered }
    ensures opened { IsOk result.opened }
    ensures again { IsErrOf result.again UnitRefusal.Taken }
    ensures zeros { result.zeros ≡ true }
    ensures has { HasDrawer (rows_of (λ b. (⟦<dyn Device as Device>⟧ b.vtable).device_state b.value) table.new) first_file second_file }
{
    let other = table.open_unit(3, b"E", false);
    let opened = table.open_unit(3, b"D", true);
    let again = table.open_unit(3, b"D", false);
    let zeros = table.zero_blanks(3);
    Opened {
        other,
        opened,
        again,
        zeros,
    }
}

/// Runs the programs on unit 3, one after the other: one record is left at CLOSE.
fn on_table(table: &mut UnitTable, into: &mut [u8]) -> Result<Closed, UnitRefusal>
    requires has { Has (rows_of (λ b. (⟦<dyn Device as Device>⟧ b.vtable).device_state b.value) table.old) the_unit (at_record [] 0 false) }
    requires room { 2 ≤ length into.old }
    ensures { IfOk result (λ closed. closed.records ≡ 1) }
{
    write_two(table)?;
    let _seen = read_both(table, into)?;
    let _refused = behind_the_end(table)?;
    let closed = cut_and_close(table)?;
    Ok(closed)
}

/// Runs them on an empty device in memory.
#[tactic(auto, using(crate::proofs::Steps::fresh))]
pub fn on_memory(alloc: Global, into: &mut [u8]) -> Result<Result<Closed, UnitRefusal>, NoMemory>
    requires { 2 ≤ length into.old }
    ensures { IfOk result (λ ended. IfOk ended (λ closed. closed.records ≡ 1)) }
{
    let mut table = UnitTable::new(alloc)?;
    let device = Box::new(alloc, MemoryDevice::new(alloc)?)?;
    match table.connect(3, device) {
        Ok(()) => Ok(on_table(&mut table, into)),
        Err(_) => Err(NoMemory),
    }
}
