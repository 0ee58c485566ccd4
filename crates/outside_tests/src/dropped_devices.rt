//! When a device is dropped, and that it is finished before.

ghost use Rattle.f2c_outside.specs.Tape.{tape_state};

use f2c_outside::devices::{Device, DeviceFault, Got};
use f2c_outside::memory_device::MemoryDevice;
use f2c_outside::texts::Name;
use f2c_outside::unit_table::{Closed, NotPlaced, UnitFault, UnitTable};
use run_state::UnitRefusal;
use std::alloc::Global;
use std::cell::Cell;
use std::process::Abort;
use std::rc::Rc;
use std::test::Fail;

/// What became of the devices of a test: how many were dropped, how many of these before a `finish` had succeeded, how many with
/// a call behind that `finish`, and how many records they had together.
#[derive(Drop)]
struct Drops {
    all: Cell<u32>,
    unfinished: Cell<u32>,
    touched: Cell<u32>,
    records: Cell<u64>,
}

impl Drops {
    /// The four numbers.
    fn counts(&self) -> (u32, u32, u32, u64) {
        (
            self.all.get(),
            self.unfinished.get(),
            self.touched.get(),
            self.records.get(),
        )
    }
}

/// A device in memory that tells, where it is dropped, how many records it has, whether it was finished, and whether any call
/// came behind that.
struct Watched {
    device: MemoryDevice,
    is_finished: bool,
    is_touched: bool,
    drops: Rc<Drops>,
}

/// Counts one more, where it is so.
fn count(counter: &Cell<u32>, is_so: bool) {
    if is_so {
        counter.set(counter.get().saturating_add(1));
    }
}

impl Drop for Watched {
    fn drop(self) {
        let Watched {
            device,
            is_finished,
            is_touched,
            drops,
        } = self;
        let mut device = device;
        let records = device.finish().unwrap_or(0);
        drops
            .records
            .set(drops.records.get().saturating_add(records));
        count(&drops.all, true);
        count(&drops.unfinished, !is_finished);
        count(&drops.touched, is_touched);
    }
}

impl Device for Watched {
    ghost device_state = { λ d. tape_state d.device };

    fn read_record(&mut self, into: &mut [u8]) -> Got {
        self.is_touched = self.is_touched || self.is_finished;
        self.device.read_record(into)
    }

    fn write_record(&mut self, bytes: &[u8]) -> Result<(), DeviceFault> {
        self.is_touched = self.is_touched || self.is_finished;
        self.device.write_record(bytes)
    }

    fn back(&mut self) -> Result<(), DeviceFault> {
        self.is_touched = self.is_touched || self.is_finished;
        self.device.back()
    }

    fn rewind(&mut self) -> Result<(), DeviceFault> {
        self.is_touched = self.is_touched || self.is_finished;
        self.device.rewind()
    }

    fn end_file(&mut self) -> Result<(), DeviceFault> {
        self.is_touched = self.is_touched || self.is_finished;
        self.device.end_file()
    }

    fn finish(&mut self) -> Result<u64, DeviceFault> {
        self.is_touched = self.is_touched || self.is_finished;
        let finished = self.device.finish();
        self.is_finished = self.is_finished || finished.is_ok();
        finished
    }
}

/// No device has been dropped.
fn no_drops(alloc: Global) -> Result<Rc<Drops>, Fail> {
    Ok(Rc::new(
        alloc,
        Drops {
            all: Cell::new(0),
            unfinished: Cell::new(0),
            touched: Cell::new(0),
            records: Cell::new(0),
        },
    )?)
}

/// A watched device, the call of which with this number fails.
fn watched_device(alloc: Global, drops: &Rc<Drops>, fails: u64) -> Result<Box<Watched>, Fail> {
    let mut device = MemoryDevice::new(alloc)?;
    device.fail_at(fails)?;
    let drops = Rc::clone(drops)?;
    Ok(Box::new(
        alloc,
        Watched {
            device,
            is_finished: false,
            is_touched: false,
            drops,
        },
    )?)
}

/// A close that rewinds, cuts and finishes the device once more before it drops it leaves no record, and calls behind the first
/// `finish`; one that finishes it twice makes such a call too.
#[test]
fn a_closed_device_is_dropped_once_finished(rt: HostRuntime) -> Result<(), Fail> {
    let drops = no_drops(rt.alloc())?;
    let mut table = UnitTable::new(rt.alloc())?;
    assert!(rt;
        table
            .connect(3, watched_device(rt.alloc(), &drops, 0)?)
            .is_ok()
    );
    let refused = table.connect(3, watched_device(rt.alloc(), &drops, 0)?);
    assert!(rt; matches!(&refused, Err(NotPlaced::Taken(_))) && drops.all.get() == 0);
    drop(refused);
    assert_eq!(rt; drops.counts(), (1, 1, 0, 0));
    assert!(rt; table.write_to(3, b"A") == Ok(()) && table.write_to(3, b"B") == Ok(()));
    assert!(rt; table.close_unit(3) == Ok(Closed { records: 2 }));
    assert_eq!(rt; drops.counts(), (2, 1, 0, 2));
    assert!(rt; table.close_unit(3) == Err(UnitRefusal::NotConnected));
    drop(table);
    assert_eq!(rt; drops.counts(), (2, 1, 0, 2));
    Ok(())
}

#[test]
fn a_failing_finish_keeps_the_device(rt: HostRuntime) -> Result<(), Fail> {
    let drops = no_drops(rt.alloc())?;
    let mut table = UnitTable::new(rt.alloc())?;
    let name = Name::new(rt.alloc(), b"D")?;
    assert!(rt;
        table
            .offer(name, watched_device(rt.alloc(), &drops, 1)?)
            .is_ok()
    );
    assert!(rt;
        table
            .connect(7, watched_device(rt.alloc(), &drops, 0)?)
            .is_ok()
    );
    assert!(rt;
        table
            .connect(-3, watched_device(rt.alloc(), &drops, 1)?)
            .is_ok()
    );
    assert!(rt; table.finish_all() == Err(UnitFault { unit: -3 }));
    assert!(rt; table.finish_all() == Ok(()));
    assert!(rt; table.open_unit(4, b"D", true) == Ok(()) && table.zero_blanks(4));
    assert!(rt; table.close_unit(4) == Err(UnitRefusal::Failed));
    assert!(rt; table.is_connected(4) && drops.all.get() == 0);
    assert!(rt; table.close_unit(4) == Ok(Closed { records: 0 }));
    assert_eq!(rt; drops.counts(), (1, 0, 0, 0));
    drop(table);
    assert_eq!(rt; drops.counts(), (3, 0, 0, 0));
    Ok(())
}
