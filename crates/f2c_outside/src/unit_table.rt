//! The table of the external units (ANSI X3.9-1978, section 12).

ghost use Rattle.std.specs.Prelude.{◌≡◌, ◌<◌, ◌++◌, ◌∷◌, [], true, false, length, map, IsTrue, IsSome, Some, Err, IfOk, IfErr, OnOk, OnErr};
ghost use Rattle.f2c_outside.specs.Shown.{shown, holds_unit, holds_name, units_in, distinct_units, next_in};
ghost use Rattle.f2c_outside.specs.Finishing.{FinishedAll, IsNext, is_above, is_below};
ghost use Rattle.f2c_outside.specs.Placing.{ComesBack, device_in, zeros_in, BecomesConnected, HandsOn};
ghost use Rattle.f2c_outside.specs.Table as table_row;
ghost use Rattle.run_state.specs.Units as units;
ghost use Rattle.f2c_outside.specs.Meaning.{Tells, Means, MeansReading, MeansOpening, MeansClosing, units_of, records_of};
ghost use Rattle.f2c_outside.specs.Table.{Offers, Connects, FinishedOn, OnClosedRow, OpenedUnit, ClosedUnit, reads_zeros, ReadFrom, WrittenTo, BackOn, RewoundOn, EndedOn, OnRow, OnUnit, IsFirst, is_connected};

use crate::devices::{Device, Got};
use crate::texts::{Name, NoMemory};
use run_state::UnitRefusal;
use std::alloc::Global;
use std::mem;
use thiserror::Error;

/// A unit that is connected to a device.
#[derive(Drop)]
struct Connection {
    unit: i32,
    device: Box<dyn Device>,
    end_mark: bool,
    zero_blanks: bool,
}

/// A row of the table.
#[derive(Drop)]
enum Row {
    /// A device in the drawer, which can be connected by its name.
    Offered { name: Name, device: Box<dyn Device> },
    /// A device that is connected to a unit.
    Connected(Connection),
    /// A row whose unit was closed.
    Closed,
}

impl Row {
    /// Whether the row is connected to this unit.
    fn is_at(&self, unit: i32) -> bool
        ensures { result ≡ holds_unit unit self.now }
    {
        match self {
            Row::Connected(connection) => connection.unit == unit,
            _ => false,
        }
    }

    /// Whether blanks in a number are read as zeros on the unit of the row.
    fn reads_zeros(&self) -> bool
        ensures { result ≡ zeros_in self.now }
    {
        match self {
            Row::Connected(connection) => connection.zero_blanks,
            _ => false,
        }
    }

    /// The lesser of `least` and the unit of the row, where it is above `last`.
    fn next(&self, last: Option<i32>, least: Option<i32>) -> Option<i32>
        ensures { result ≡ next_in last least self.now }
    {
        match self {
            Row::Connected(connection)
                if is_above(connection.unit, last) && is_below(connection.unit, least) => {
                Some(connection.unit)
            }
            _ => least,
        }
    }

    /// Whether the row is offered under this name.
    fn has_name(&self, name: &[u8]) -> bool
        ensures { result ≡ holds_name name.now self.now }
    {
        match self {
            Row::Offered { name: own, .. } => own.as_bytes() == name,
            _ => false,
        }
    }
}

/// The device of a row that is not closed.
fn device_of(row: Row) -> Box<dyn Device>
    requires { IsSome (device_in row) }
    ensures { device_in row ≡ Some result }
{
    match row {
        Row::Offered { name: _, device } => device,
        Row::Connected(
            Connection {
                unit: _,
                device,
                end_mark: _,
                zero_blanks: _,
            },
        ) => device,
        Row::Closed => unreachable!(),
    }
}

/// Whether a unit is above the last one, where there is one.
fn is_above(unit: i32, last: Option<i32>) -> bool
    ensures { result ≡ is_above last unit }
{
    last.is_none_or(|last| last < unit)
}

/// Whether a unit is below the least one so far, where there is one.
fn is_below(unit: i32, least: Option<i32>) -> bool
    ensures { result ≡ is_below least unit }
{
    least.is_none_or(|least| unit < least)
}

/// The least connected unit above the last one.
fn next_unit(rows: &[Row], last: Option<i32>) -> Option<i32>
    ensures { IsNext last (units_in rows.now) result }
{
    let mut least = None;
    for row in rows {
        least = row.next(last, least);
    }
    least
}

/// The number of the row of this unit.
fn row_of(rows: &[Row], unit: i32) -> Option<usize>
    ensures { IsFirst (holds_unit unit) rows.now result }
{
    for (number, row) in rows.iter().enumerate() {
        if row.is_at(unit) {
            return Some(number);
        }
    }
    None
}

/// The number of the first row that is offered under this name.
fn offer_of(rows: &[Row], name: &[u8]) -> Option<usize>
    ensures { IsFirst (holds_name name.now) rows.now result }
{
    for (number, row) in rows.iter().enumerate() {
        if row.has_name(name) {
            return Some(number);
        }
    }
    None
}

/// Reads the next record of a device, and sets the end mark at the end.
fn read_device(
    device: &mut Box<dyn Device>,
    end_mark: &mut bool,
    into: &mut [u8],
) -> Result<Got, UnitRefusal>
    ensures { ReadFrom (device_state device.old) end_mark.old (device_state device.new) end_mark.new into.old into.new result }
{
    match device.read_record(into) {
        Got::Failed => Err(UnitRefusal::Failed),
        Got::End => {
            *end_mark = true;
            Ok(Got::End)
        }
        got => Ok(got),
    }
}

/// Writes a record, unless the end mark stands.
fn write_device(
    device: &mut Box<dyn Device>,
    end_mark: bool,
    bytes: &[u8],
) -> Result<(), UnitRefusal>
    ensures { WrittenTo (device_state device.old) end_mark (device_state device.new) end_mark bytes.now result }
{
    if end_mark {
        return Err(UnitRefusal::PastEnd);
    }
    match device.write_record(bytes) {
        Ok(()) => Ok(()),
        Err(_) => Err(UnitRefusal::Failed),
    }
}

/// Clears a standing end mark, or else goes back by one record.
fn back_device(device: &mut Box<dyn Device>, end_mark: &mut bool) -> Result<(), UnitRefusal>
    ensures { BackOn (device_state device.old) end_mark.old (device_state device.new) end_mark.new result }
{
    if *end_mark {
        *end_mark = false;
        return Ok(());
    }
    match device.back() {
        Ok(()) => Ok(()),
        Err(_) => Err(UnitRefusal::Failed),
    }
}

/// Goes before the first record, and clears the end mark.
fn rewind_device(device: &mut Box<dyn Device>, end_mark: &mut bool) -> Result<(), UnitRefusal>
    ensures { RewoundOn (device_state device.old) end_mark.old (device_state device.new) end_mark.new result }
{
    match device.rewind() {
        Ok(()) => {
            *end_mark = false;
            Ok(())
        }
        Err(_) => Err(UnitRefusal::Failed),
    }
}

/// Cuts off the records from the position on, and sets the end mark, unless it stands.
fn end_device(device: &mut Box<dyn Device>, end_mark: &mut bool) -> Result<(), UnitRefusal>
    ensures { EndedOn (device_state device.old) end_mark.old (device_state device.new) end_mark.new result }
{
    if *end_mark {
        return Err(UnitRefusal::PastEnd);
    }
    match device.end_file() {
        Ok(()) => {
            *end_mark = true;
            Ok(())
        }
        Err(_) => Err(UnitRefusal::Failed),
    }
}

/// Finishes a device, and answers how many records it has.
fn finish_device(device: &mut Box<dyn Device>, end_mark: bool) -> Result<u64, UnitRefusal>
    ensures { FinishedOn (device_state device.old) end_mark (device_state device.new) end_mark result }
{
    match device.finish() {
        Ok(records) => Ok(records),
        Err(_) => Err(UnitRefusal::Failed),
    }
}

/// Reads the next record of the device of a row.
fn read_row(row: &mut Row, into: &mut [u8]) -> Result<Got, UnitRefusal>
    ensures { OnRow (shown (λ b. device_state b) row.old) (shown (λ b. device_state b) row.new)
        (λ d m d' m'. ReadFrom d m d' m' into.old into.new result) }
{
    match row {
        Row::Connected(connection) => read_device(
            &mut connection.device,
            &mut connection.end_mark,
            into,
        ),
        _ => Err(UnitRefusal::NotConnected),
    }
}

/// Writes a record to the device of a row.
fn write_row(row: &mut Row, bytes: &[u8]) -> Result<(), UnitRefusal>
    ensures { OnRow (shown (λ b. device_state b) row.old) (shown (λ b. device_state b) row.new)
        (λ d m d' m'. WrittenTo d m d' m' bytes.now result) }
{
    match row {
        Row::Connected(connection) => write_device(
            &mut connection.device,
            connection.end_mark,
            bytes,
        ),
        _ => Err(UnitRefusal::NotConnected),
    }
}

/// Goes back on the device of a row.
fn back_row(row: &mut Row) -> Result<(), UnitRefusal>
    ensures { OnRow (shown (λ b. device_state b) row.old) (shown (λ b. device_state b) row.new)
        (λ d m d' m'. BackOn d m d' m' result) }
{
    match row {
        Row::Connected(connection) => back_device(&mut connection.device, &mut connection.end_mark),
        _ => Err(UnitRefusal::NotConnected),
    }
}

/// Rewinds the device of a row.
fn rewind_row(row: &mut Row) -> Result<(), UnitRefusal>
    ensures { OnRow (shown (λ b. device_state b) row.old) (shown (λ b. device_state b) row.new)
        (λ d m d' m'. RewoundOn d m d' m' result) }
{
    match row {
        Row::Connected(connection) => rewind_device(
            &mut connection.device,
            &mut connection.end_mark,
        ),
        _ => Err(UnitRefusal::NotConnected),
    }
}

/// Ends the file of the device of a row.
fn end_row(row: &mut Row) -> Result<(), UnitRefusal>
    ensures { OnRow (shown (λ b. device_state b) row.old) (shown (λ b. device_state b) row.new)
        (λ d m d' m'. EndedOn d m d' m' result) }
{
    match row {
        Row::Connected(connection) => end_device(&mut connection.device, &mut connection.end_mark),
        _ => Err(UnitRefusal::NotConnected),
    }
}

/// Finishes the device of a row.
fn finish_row(row: &mut Row) -> Result<u64, UnitRefusal>
    ensures { OnRow (shown (λ b. device_state b) row.old) (shown (λ b. device_state b) row.new)
        (λ d m d' m'. FinishedOn d m d' m' result) }
{
    match row {
        Row::Connected(connection) => finish_device(&mut connection.device, connection.end_mark),
        _ => Err(UnitRefusal::NotConnected),
    }
}

/// A device that was taken out of its row, and how many records it has.
#[derive(Drop)]
struct Taken {
    device: Box<dyn Device>,
    records: u64,
}

/// Finishes the device of a row and, where that succeeds, takes it out of the row, which is closed.
fn take_row(row: &mut Row) -> Result<Taken, UnitRefusal>
    ensures closed { OnOk result (shown (λ b. device_state b) row.new ≡ table_row.Closed) }
    ensures handed_on { IfOk result (λ taken. HandsOn (shown (λ b. device_state b) row.old) (device_state taken.device) taken.records) }
    ensures kept { IfErr result (λ refused. OnRow (shown (λ b. device_state b) row.old) (shown (λ b. device_state b) row.new)
        (λ d m d' m'. FinishedOn d m d' m' (Err refused))) }
{
    match mem::replace(row, Row::Closed) {
        Row::Connected(mut connection) => match finish_device(
            &mut connection.device,
            connection.end_mark,
        ) {
            Ok(records) => Ok(Taken {
                device: device_of(Row::Connected(connection)),
                records,
            }),
            Err(refused) => {
                *row = Row::Connected(connection);
                Err(refused)
            }
        },
        other => {
            *row = other;
            Err(UnitRefusal::NotConnected)
        }
    }
}

/// Finishes the device of a row and, where that succeeds, closes the row and drops the device.
fn close_row(row: &mut Row) -> Result<Closed, UnitRefusal>
    ensures { OnClosedRow (shown (λ b. device_state b) row.old) (shown (λ b. device_state b) row.new) result }
{
    match take_row(row) {
        Ok(Taken { device, records }) => {
            drop(device);
            Ok(Closed { records })
        }
        Err(refused) => Err(refused),
    }
}

/// Connects an offered row to a unit.
fn connect_row(row: &mut Row, unit: i32, zero_blanks: bool)
    ensures { BecomesConnected unit zero_blanks (shown (λ b. device_state b) row.old) (shown (λ b. device_state b) row.new) }
{
    match mem::replace(row, Row::Closed) {
        Row::Offered { name: _, device } => {
            *row = Row::Connected(Connection {
                unit,
                device,
                end_mark: false,
                zero_blanks,
            });
        }
        other => *row = other,
    }
}

/// The units that are connected, and the drawer of the devices that can be connected by name.
#[derive(Drop)]
pub struct UnitTable {
    rows: Vec<Row>,
    ghost distinct: { IsTrue (distinct_units (units_in rows.items)) },
}

impl UnitTable {
    ghost use Rattle.f2c_outside.specs.Rows.{rows_of};

    /// A table without units and with an empty drawer.
    pub fn new(alloc: Global) -> Result<UnitTable, NoMemory>
        ensures { IfOk result (λ table. rows_of (λ b. device_state b) table ≡ []) }
    {
        Ok(UnitTable {
            rows: Vec::new(alloc),
        })
    }

    /// Whether the unit is connected.
    pub fn is_connected(&self, unit: i32) -> bool
        ensures is { result ≡ is_connected unit (rows_of (λ b. device_state b) self.now) }
        ensures means { result ≡ units.is_connected unit (units_of (rows_of (λ b. device_state b) self.now)) }
    {
        row_of(self.rows.as_slice(), unit).is_some()
    }

    /// Whether blanks in a number are read as zeros on this unit; false where it is not connected.
    pub fn zero_blanks(&self, unit: i32) -> bool
        ensures is { result ≡ reads_zeros unit (rows_of (λ b. device_state b) self.now) }
        ensures means { result ≡ units.reads_zero_blanks unit (units_of (rows_of (λ b. device_state b) self.now)) }
    {
        match row_of(self.rows.as_slice(), unit) {
            Some(number) => self.rows[number].reads_zeros(),
            None => false,
        }
    }

    /// Connects a unit to a device, without an end mark and with blanks that are ignored.
    /// `Taken` comes exactly where the unit is connected. A refused device comes back.
    pub fn connect(&mut self, unit: i32, device: Box<dyn Device>) -> Result<(), NotPlaced>
        ensures ok { OnOk result (rows_of (λ b. device_state b) self.new
            ≡ rows_of (λ b. device_state b) self.old ++ Connects unit (device_state device) false false ∷ []) }
        ensures free { OnOk result (is_connected unit (rows_of (λ b. device_state b) self.old) ≡ false) }
        ensures kept { OnErr result (rows_of (λ b. device_state b) self.new ≡ rows_of (λ b. device_state b) self.old) }
        ensures refused { IfErr result (ComesBack (is_connected unit (rows_of (λ b. device_state b) self.old)) device) }
        ensures means { OnOk result (units_of (rows_of (λ b. device_state b) self.new)
            ≡ units.preconnect unit (records_of (device_state device)) (device_state device).position (units_of (rows_of (λ b. device_state b) self.old))) }
    {
        if self.is_connected(unit) {
            return Err(NotPlaced::Taken(device));
        }
        let row = Row::Connected(Connection {
            unit,
            device,
            end_mark: false,
            zero_blanks: false,
        });
        match self.rows.push(row) {
            Ok(()) => Ok(()),
            Err(refused) => Err(NotPlaced::NoMemory(device_of(refused.value))),
        }
    }

    /// Puts a device into the drawer, behind the others, so that it can be opened by its name; opening
    /// it takes no memory. `NoMemory` alone is answered, and gives the device back.
    pub fn offer(&mut self, name: Name, device: Box<dyn Device>) -> Result<(), NotPlaced>
        ensures ok { OnOk result (rows_of (λ b. device_state b) self.new
            ≡ rows_of (λ b. device_state b) self.old ++ Offers name (device_state device) ∷ []) }
        ensures kept { OnErr result (rows_of (λ b. device_state b) self.new ≡ rows_of (λ b. device_state b) self.old) }
        ensures refused { IfErr result (ComesBack false device) }
        ensures means { OnOk result (units_of (rows_of (λ b. device_state b) self.new)
            ≡ units.put_in_drawer name (records_of (device_state device)) (device_state device).position (units_of (rows_of (λ b. device_state b) self.old))) }
    {
        match self.rows.push(Row::Offered { name, device }) {
            Ok(()) => Ok(()),
            Err(refused) => Err(NotPlaced::NoMemory(device_of(refused.value))),
        }
    }

    /// OPEN: connects the first device of the drawer that has the name, without an end mark.
    /// `Taken` comes exactly where the unit is connected, else `NotOffered` exactly where no device of
    /// the drawer has the name. It takes no memory.
    pub fn open_unit(
        &mut self,
        unit: i32,
        name: &[u8],
        zero_blanks: bool,
    ) -> Result<(), UnitRefusal>
        ensures did { OpenedUnit unit name.now zero_blanks (rows_of (λ b. device_state b) self.old) (rows_of (λ b. device_state b) self.new) result }
        ensures means { MeansOpening result (units.open_unit unit name.now zero_blanks (units_of (rows_of (λ b. device_state b) self.old)))
            (rows_of (λ b. device_state b) self.old) (rows_of (λ b. device_state b) self.new) }
    {
        if self.is_connected(unit) {
            return Err(UnitRefusal::Taken);
        }
        match offer_of(self.rows.as_slice(), name) {
            Some(number) => {
                connect_row(&mut self.rows[number], unit, zero_blanks);
                Ok(())
            }
            None => Err(UnitRefusal::NotOffered),
        }
    }

    /// CLOSE: finishes the device of a unit, drops it, and answers how many records it has.
    /// `NotConnected` comes exactly where the unit is not connected, `Failed` only where its device
    /// failed; then the unit is still connected and keeps its device.
    pub fn close_unit(&mut self, unit: i32) -> Result<Closed, UnitRefusal>
        ensures did { ClosedUnit unit (rows_of (λ b. device_state b) self.old) (rows_of (λ b. device_state b) self.new) result }
        ensures means { Tells (rows_of (λ b. device_state b) self.old)
            → MeansClosing result (units.close_unit unit (units_of (rows_of (λ b. device_state b) self.old))) (rows_of (λ b. device_state b) self.new) }
    {
        match row_of(self.rows.as_slice(), unit) {
            Some(number) => close_row(&mut self.rows[number]),
            None => Err(UnitRefusal::NotConnected),
        }
    }

    /// Finishes the device of a unit, and answers how many records it has. The unit stays connected.
    fn finish_unit(&mut self, unit: i32) -> Result<u64, UnitRefusal>
        ensures { OnUnit unit (rows_of (λ b. device_state b) self.old) (rows_of (λ b. device_state b) self.new) result
            (λ d m d' m'. FinishedOn d m d' m' result) }
    {
        match row_of(self.rows.as_slice(), unit) {
            Some(number) => finish_row(&mut self.rows[number]),
            None => Err(UnitRefusal::NotConnected),
        }
    }

    /// Finishes the device of each connected unit, in ascending order. The units stay connected.
    /// The first unit whose device fails is answered, and those above it are not reached.
    pub fn finish_all(&mut self) -> Result<(), UnitFault>
        ensures did { FinishedAll (rows_of (λ b. device_state b) self.old) (rows_of (λ b. device_state b) self.new) result }
        ensures means { units_of (rows_of (λ b. device_state b) self.new) ≡ units_of (rows_of (λ b. device_state b) self.old) }
    {
        let mut last = None;
        while let Some(unit) = next_unit(self.rows.as_slice(), last) {
            match self.finish_unit(unit) {
                Ok(_) => last = Some(unit),
                Err(_) => return Err(UnitFault { unit }),
            }
        }
        Ok(())
    }

    /// Reads the next record of a unit into the front of `into`, and sets the end mark at the end.
    /// `NotConnected` comes exactly where the unit is not connected, `Failed` only where its device failed.
    pub fn read_from(&mut self, unit: i32, into: &mut [u8]) -> Result<Got, UnitRefusal>
        ensures did { OnUnit unit (rows_of (λ b. device_state b) self.old) (rows_of (λ b. device_state b) self.new) result
            (λ d m d' m'. ReadFrom d m d' m' into.old into.new result) }
        ensures means { Tells (rows_of (λ b. device_state b) self.old)
            → MeansReading result (units.read_unit unit (units_of (rows_of (λ b. device_state b) self.old))) (rows_of (λ b. device_state b) self.new)
            into.old into.new }
    {
        match row_of(self.rows.as_slice(), unit) {
            Some(number) => read_row(&mut self.rows[number], into),
            None => Err(UnitRefusal::NotConnected),
        }
    }

    /// Writes a record to a unit. `NotConnected` comes exactly where the unit is not connected, else
    /// `PastEnd` exactly where the end mark stands, `Failed` only where its device failed.
    pub fn write_to(&mut self, unit: i32, bytes: &[u8]) -> Result<(), UnitRefusal>
        ensures did { OnUnit unit (rows_of (λ b. device_state b) self.old) (rows_of (λ b. device_state b) self.new) result
            (λ d m d' m'. WrittenTo d m d' m' bytes.now result) }
        ensures means { Tells (rows_of (λ b. device_state b) self.old)
            → Means result (units.write_unit unit bytes.now (units_of (rows_of (λ b. device_state b) self.old))) (rows_of (λ b. device_state b) self.new) }
    {
        match row_of(self.rows.as_slice(), unit) {
            Some(number) => write_row(&mut self.rows[number], bytes),
            None => Err(UnitRefusal::NotConnected),
        }
    }

    /// BACKSPACE: clears a standing end mark, or else goes back by one record.
    /// `NotConnected` comes exactly where the unit is not connected, `Failed` only where its device failed.
    pub fn back_unit(&mut self, unit: i32) -> Result<(), UnitRefusal>
        ensures did { OnUnit unit (rows_of (λ b. device_state b) self.old) (rows_of (λ b. device_state b) self.new) result
            (λ d m d' m'. BackOn d m d' m' result) }
        ensures means { Tells (rows_of (λ b. device_state b) self.old)
            → Means result (units.back_unit unit (units_of (rows_of (λ b. device_state b) self.old))) (rows_of (λ b. device_state b) self.new) }
    {
        match row_of(self.rows.as_slice(), unit) {
            Some(number) => back_row(&mut self.rows[number]),
            None => Err(UnitRefusal::NotConnected),
        }
    }

    /// REWIND: goes before the first record and clears the end mark.
    /// `NotConnected` comes exactly where the unit is not connected, `Failed` only where its device failed.
    pub fn rewind_unit(&mut self, unit: i32) -> Result<(), UnitRefusal>
        ensures did { OnUnit unit (rows_of (λ b. device_state b) self.old) (rows_of (λ b. device_state b) self.new) result
            (λ d m d' m'. RewoundOn d m d' m' result) }
        ensures means { Tells (rows_of (λ b. device_state b) self.old)
            → Means result (units.rewind_unit unit (units_of (rows_of (λ b. device_state b) self.old))) (rows_of (λ b. device_state b) self.new) }
    {
        match row_of(self.rows.as_slice(), unit) {
            Some(number) => rewind_row(&mut self.rows[number]),
            None => Err(UnitRefusal::NotConnected),
        }
    }

    /// ENDFILE: cuts off the records from the position on and sets the end mark.
    /// `NotConnected` comes exactly where the unit is not connected, else `PastEnd` exactly where the end
    /// mark stands, `Failed` only where its device failed.
    pub fn end_unit(&mut self, unit: i32) -> Result<(), UnitRefusal>
        ensures did { OnUnit unit (rows_of (λ b. device_state b) self.old) (rows_of (λ b. device_state b) self.new) result
            (λ d m d' m'. EndedOn d m d' m' result) }
        ensures means { Tells (rows_of (λ b. device_state b) self.old)
            → Means result (units.end_unit unit (units_of (rows_of (λ b. device_state b) self.old))) (rows_of (λ b. device_state b) self.new) }
    {
        match row_of(self.rows.as_slice(), unit) {
            Some(number) => end_row(&mut self.rows[number]),
            None => Err(UnitRefusal::NotConnected),
        }
    }
}

/// What was closed.
#[derive(Clone, Copy, Debug, PartialEq, Eq)]
pub struct Closed {
    /// How many records the file has.
    pub records: u64,
}

/// The first unit whose device failed where all were to be finished.
#[derive(Clone, Copy, Debug, PartialEq, Eq, Error)]
#[error("unit {unit}: device fault")]
pub struct UnitFault {
    /// The unit.
    pub unit: i32,
}

/// Why a device was not placed in the table. It comes back in the answer.
#[derive(Drop)]
pub enum NotPlaced {
    /// Memory was refused.
    NoMemory(Box<dyn Device>),
    /// The unit is connected.
    Taken(Box<dyn Device>),
}
