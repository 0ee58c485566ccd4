//! How devices come into a table: connected to a unit, or into the drawer.

ghost use Rattle.std.specs.Prelude.{◌≡◌, [], ◌∷◌, ◌++◌, true, false, Option, is_some, IfOk, IfErr, OnOk, OnErr, IsErr, IsOk};
ghost use Rattle.f2c_outside.specs.Rows.{rows_of};
ghost use Rattle.f2c_outside.specs.Table.{is_connected, Connects, Offers};
ghost use Rattle.run_state.specs.Units.{UnitState, zero_blanks_of};
ghost use Rattle.unit_table_rows.specs.Ends.{Has, the_unit, IsTaken, IsUnplaced};

use crate::programs::{Opened, open_first};
use f2c_outside::devices::Device;
use f2c_outside::memory_device::MemoryDevice;
use f2c_outside::texts::{Name, NoMemory};
use f2c_outside::unit_table::{NotPlaced, UnitTable};
use std::alloc::Global;

/// A device for a unit that is connected comes back, and the table is as before.
pub fn connect_again(table: &mut UnitTable, device: Box<dyn Device>) -> Result<(), NotPlaced>
    requires { is_connected the_unit (rows_of (λ b. (⟦<dyn Device as Device>⟧ b.vtable).device_state b.value) table.old) ≡ true }
    ensures refused { IsErr result }
    ensures back { IfErr result (IsTaken device) }
    ensures kept { rows_of (λ b. (⟦<dyn Device as Device>⟧ b.vtable).device_state b.value) table.new ≡ rows_of (λ b. (⟦<dyn Device as Device>⟧ b.vtable).device_state b.value) table.old }
{
    table.connect(3, device)
}

/// A device for a unit that is free is connected to it, in the last row, without an end mark and with blanks that are ignored;
/// or it comes back for want of memory, and the table is as before.
pub fn connect_free(table: &mut UnitTable, device: Box<dyn Device>) -> Result<(), NotPlaced>
    requires { is_connected the_unit (rows_of (λ b. (⟦<dyn Device as Device>⟧ b.vtable).device_state b.value) table.old) ≡ false }
    ensures placed { OnOk result (rows_of (λ b. (⟦<dyn Device as Device>⟧ b.vtable).device_state b.value) table.new ≡ rows_of (λ b. (⟦<dyn Device as Device>⟧ b.vtable).device_state b.value) table.old ++ Connects the_unit ((⟦<dyn Device as Device>⟧ device.vtable).device_state device.value) false false ∷ []) }
    ensures back { IfErr result (IsUnplaced device) }
    ensures kept { OnErr result (rows_of (λ b. (⟦<dyn Device as Device>⟧ b.vtable).device_state b.value) table.new ≡ rows_of (λ b. (⟦<dyn Device as Device>⟧ b.vtable).device_state b.value) table.old) }
{
    table.connect(3, device)
}

/// A device under a name goes into the drawer, behind the others; or it comes back for want of memory, and the table is as before.
pub fn offer_one(
    table: &mut UnitTable,
    name: Name,
    device: Box<dyn Device>,
) -> Result<(), NotPlaced>
    requires { Unit {0} }
    ensures placed { OnOk result (rows_of (λ b. (⟦<dyn Device as Device>⟧ b.vtable).device_state b.value) table.new ≡ rows_of (λ b. (⟦<dyn Device as Device>⟧ b.vtable).device_state b.value) table.old ++ Offers name ((⟦<dyn Device as Device>⟧ device.vtable).device_state device.value) ∷ []) }
    ensures back { IfErr result (IsUnplaced device) }
    ensures kept { OnErr result (rows_of (λ b. (⟦<dyn Device as Device>⟧ b.vtable).device_state b.value) table.new ≡ rows_of (λ b. (⟦<dyn Device as Device>⟧ b.vtable).device_state b.value) table.old) }
{
    table.offer(name, device)
}

/// Whether unit 3 is connected, and whether blanks are zeros on it, as its state says.
pub fn look(table: &UnitTable) -> Fresh
    ensures connected { (state : Option UnitState) → Has (rows_of (λ b. (⟦<dyn Device as Device>⟧ b.vtable).device_state b.value) table.now) the_unit state → result.is_connected ≡ is_some state }
    ensures zeros { (state : Option UnitState) → Has (rows_of (λ b. (⟦<dyn Device as Device>⟧ b.vtable).device_state b.value) table.now) the_unit state → result.zeros ≡ zero_blanks_of state }
{
    Fresh {
        is_connected: table.is_connected(3),
        zeros: table.zero_blanks(3),
    }
}

/// Whether unit 3 is connected, and whether blanks are zeros there.
#[derive(Clone, Copy)]
pub struct Fresh {
    /// Whether unit 3 is connected.
    pub is_connected: bool,
    /// Whether blanks are zeros on it.
    pub zeros: bool,
}

/// In a new table no unit is connected.
pub fn new_table(alloc: Global) -> Result<Fresh, NoMemory>
    ensures connected { IfOk result (λ fresh. fresh.is_connected ≡ false) }
    ensures zeros { IfOk result (λ fresh. fresh.zeros ≡ false) }
{
    let table = UnitTable::new(alloc)?;
    Ok(Fresh {
        is_connected: table.is_connected(3),
        zeros: table.zero_blanks(3),
    })
}

/// Runs `open_first` on two files in memory: the first has the record `A`, the second none.
#[tactic(auto, using(crate::proofs::Steps::both_offered))]
pub fn open_in_memory(alloc: Global) -> Result<Opened, NoMemory>
    ensures opened { IfOk result (λ opened. IsOk opened.opened) }
    ensures zeros { IfOk result (λ opened. opened.zeros ≡ true) }
{
    let mut table = UnitTable::new(alloc)?;
    let mut first = MemoryDevice::new(alloc)?;
    first.add(b"A")?;
    let second = MemoryDevice::new(alloc)?;
    if table
        .offer(file_name(alloc)?, Box::new(alloc, first)?)
        .is_err()
        || table
            .offer(file_name(alloc)?, Box::new(alloc, second)?)
            .is_err()
    {
        return Err(NoMemory);
    }
    Ok(open_first(&mut table))
}

/// The name `D`.
fn file_name(alloc: Global) -> Result<Name, NoMemory>
    ensures { IfOk result (λ name. name ≡ 68 ∷ []) }
{
    match Name::new(alloc, b"D") {
        Ok(name) => Ok(name),
        Err(_) => Err(NoMemory),
    }
}
