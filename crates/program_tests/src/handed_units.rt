//! That the units which are handed in come back with their devices, that these are dropped with the answer, and that a run drops the device of a unit
//! that it closes.

ghost use Rattle.f2c_outside.specs.Tape.{tape_state};

use crate::calls::shelf_of;
use f2c_outside::devices::{Device, DeviceFault, Got};
use f2c_outside::memory_device::MemoryDevice;
use f2c_outside::memory_shelf::MemoryShelf;
use f2c_outside::texts::{Name, Words};
use f2c_outside::unit_table::UnitTable;
use f2c_program::{Ended, f2c};
use std::alloc::Global;
use std::cell::Cell;
use std::rc::Rc;
use std::test::Fail;

/// A device in memory that is counted where it is dropped.
struct Counted {
    device: MemoryDevice,
    drops: Rc<Cell<u32>>,
}

impl Drop for Counted {
    fn drop(self) {
        let Counted { device: _, drops } = self;
        drops.set(drops.get().saturating_add(1));
    }
}

impl Device for Counted {
    ghost device_state = { λ d. tape_state d.device };

    fn read_record(&mut self, into: &mut [u8]) -> Got {
        self.device.read_record(into)
    }

    fn write_record(&mut self, bytes: &[u8]) -> Result<(), DeviceFault> {
        self.device.write_record(bytes)
    }

    fn back(&mut self) -> Result<(), DeviceFault> {
        self.device.back()
    }

    fn rewind(&mut self) -> Result<(), DeviceFault> {
        self.device.rewind()
    }

    fn end_file(&mut self) -> Result<(), DeviceFault> {
        self.device.end_file()
    }

    fn finish(&mut self) -> Result<u64, DeviceFault> {
        self.device.finish()
    }
}

/// A device that is counted, the call of which with this number fails.
fn counted_device(alloc: Global, drops: &Rc<Cell<u32>>, fails: u64) -> Result<Box<Counted>, Fail> {
    let mut device = MemoryDevice::new(alloc)?;
    device.fail_at(fails)?;
    let drops = Rc::clone(drops)?;
    Ok(Box::new(alloc, Counted { device, drops })?)
}

#[test]
fn devices_come_back_and_are_dropped_with_the_answer(rt: HostRuntime) -> Result<(), Fail> {
    let alloc = rt.alloc();
    let drops = Rc::new(alloc, Cell::new(0))?;
    let mut units = UnitTable::new(alloc)?;
    let name = Name::new(alloc, b"D")?;
    assert!(rt; units.connect(3, counted_device(alloc, &drops, 0)?).is_ok());
    assert!(rt; units.offer(name, counted_device(alloc, &drops, 0)?).is_ok());
    let mut shelf = MemoryShelf::new(alloc)?;
    shelf.set_input(b"      I=2\n      END\n")?;
    let words = Words::new(alloc)?;
    let ended = f2c(alloc, &words, &mut shelf, units);
    assert!(rt; ended.status == 0 && ended.units.is_connected(3));
    assert_eq!(rt; drops.get(), 0);
    drop(ended);
    assert_eq!(rt; drops.get(), 2);
    Ok(())
}

/// A text that opens a file on unit 9 and closes it.
const OPENS_AND_CLOSES: &[u8] = b"#include \"f2c.h\"
int MAIN__(void)
{
    extern integer f_open(olist *);
    extern integer f_clos(cllist *);
    static olist io___1 = { 0, 9, \"D\", 1, 0, 0, 0, 0, 0 };
    static cllist io___2 = { 0, 9, 0 };
    f_open(&io___1);
    f_clos(&io___2);
    return 0;
}
";

/// Runs that text over these units.
fn run_text(alloc: Global, units: UnitTable) -> Result<Ended, Fail> {
    let mut shelf = shelf_of(alloc, &[(b"a.c", OPENS_AND_CLOSES)])?;
    let mut words = Words::new(alloc)?;
    words.push(b"-run")?;
    words.push(b"a.c")?;
    Ok(f2c(alloc, &words, &mut shelf, units))
}

#[test]
fn a_device_that_a_run_closes_is_dropped_once(rt: HostRuntime) -> Result<(), Fail> {
    let alloc = rt.alloc();
    let drops = Rc::new(alloc, Cell::new(0))?;
    let mut units = UnitTable::new(alloc)?;
    let name = Name::new(alloc, b"D")?;
    assert!(rt; units.connect(6, counted_device(alloc, &drops, 0)?).is_ok());
    assert!(rt; units.offer(name, counted_device(alloc, &drops, 0)?).is_ok());
    let ended = run_text(alloc, units)?;
    assert!(rt; ended.status == 0 && !ended.units.is_connected(9));
    assert_eq!(rt; drops.get(), 1);
    drop(ended);
    assert_eq!(rt; drops.get(), 2);
    Ok(())
}

#[test]
fn a_device_that_fails_as_it_is_closed_is_kept(rt: HostRuntime) -> Result<(), Fail> {
    let alloc = rt.alloc();
    let drops = Rc::new(alloc, Cell::new(0))?;
    let mut units = UnitTable::new(alloc)?;
    let name = Name::new(alloc, b"D")?;
    assert!(rt; units.connect(6, counted_device(alloc, &drops, 0)?).is_ok());
    assert!(rt; units.offer(name, counted_device(alloc, &drops, 1)?).is_ok());
    let ended = run_text(alloc, units)?;
    assert!(rt; ended.status == 9 && ended.units.is_connected(9));
    assert_eq!(rt; drops.get(), 0);
    drop(ended);
    assert_eq!(rt; drops.get(), 2);
    Ok(())
}
