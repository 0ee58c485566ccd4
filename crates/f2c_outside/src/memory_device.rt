//! A device in memory, for tests.

ghost use Rattle.std.specs.Prelude.{◌≡◌, ◌+◌, ◌≤◌, ◌∷◌, ◌++◌, [], length, map, IfOk, OnOk, OnErr, IsErr};
ghost use Rattle.f2c_outside.specs.Device.{WasCalled, DidRead, Wrote, WentBack, Rewound, EndedFile, Finished, written_at};
ghost use Rattle.f2c_outside.specs.Plan.{also_failing};
ghost use Rattle.f2c_outside.specs.Tape.{tape_state, empty_tape, Gives, TapeCounted, TapeGrowth};

use crate::devices::{Device, DeviceFault, Got};
use crate::plan::Plan;
use crate::texts::NoMemory;
use std::alloc::Global;
use std::marker::Model;

/// A device that holds its records in memory, and fails where it is told to.
#[derive(Drop)]
pub struct MemoryDevice {
    records: Vec<Vec<u8>>,
    position: usize,
    finished: bool,
    plan: Plan,
    starved: u64,
}

impl Model for MemoryDevice {
    ghost use Rattle.std.specs.Prelude.{map, length, ◌≤◌};
    ghost use Rattle.f2c_outside.specs.Tape.{Tape};

    ghost Value = { Tape };

    ghost view = { λ d. record {
      records = map (λ r. r.items) d.records.items;
      position = d.position;
      finished = d.finished;
      plan = d.plan;
      starved = d.starved;
    } };

    ghost invariant = { λ d. d.position ≤ length d.records.items };
}

impl MemoryDevice {
    /// A device without records, at position 0, no call of which is to fail.
    pub fn new(alloc: Global) -> Result<MemoryDevice, NoMemory>
        ensures { IfOk result (λ device. device ≡ empty_tape) }
    {
        Ok(MemoryDevice {
            records: Vec::new(alloc),
            position: 0,
            finished: false,
            plan: Plan::new(alloc),
            starved: 0,
        })
    }

    /// Puts a record behind the others. The position stays. After `NoMemory` the device is as before.
    pub fn add(&mut self, bytes: &[u8]) -> Result<(), NoMemory>
        ensures ok { OnOk result (self.new ≡ record self.old { records = self.old.records ++ bytes.now ∷ [] }) }
        ensures err { OnErr result (self.new ≡ self.old) }
    {
        let alloc = *self.records.allocator();
        let record = Vec::from_slice(alloc, bytes)?;
        self.records.push(record)?;
        Ok(())
    }

    /// The call of this number is to fail, too. Calls of the trait `Device` are counted from 1.
    /// After `NoMemory` the device is as before.
    pub fn fail_at(&mut self, call: u64) -> Result<(), NoMemory>
        ensures ok { OnOk result (self.new ≡ record self.old { plan = also_failing call self.old.plan }) }
        ensures err { OnErr result (self.new ≡ self.old) }
    {
        self.plan.fail_at(call)
    }
}

impl Device for MemoryDevice {
    ghost device_state = { tape_state };

    fn read_record(&mut self, into: &mut [u8]) -> Got
        ensures called { WasCalled (tape_state self.old) (tape_state self.new) (result ≡ Got.Failed) }
        ensures read { DidRead result (tape_state self.old) (tape_state self.new) into.old into.new }
        ensures slice { result ≡ Got.Failed → into.new ≡ into.old }
        ensures counted { TapeCounted self.old self.new (result ≡ Got.Failed) }
    {
        if self.plan.next_fails() {
            return Got::Failed;
        }
        if self.position == self.records.len() {
            return Got::End;
        }
        let got = give(self.records[self.position].as_slice(), into);
        self.position += 1;
        got
    }

    fn write_record(&mut self, bytes: &[u8]) -> Result<(), DeviceFault>
        ensures called { WasCalled (tape_state self.old) (tape_state self.new) (IsErr result) }
        ensures wrote { Wrote bytes.now (tape_state self.old) (tape_state self.new) result }
        ensures counted { TapeGrowth self.old self.new (IsErr result) }
    {
        if self.plan.next_fails() {
            return Err(DeviceFault::Failed);
        }
        match write_at(&mut self.records, self.position, bytes) {
            Ok(()) => {
                self.position += 1;
                self.finished = false;
                Ok(())
            }
            Err(_) => {
                self.starved = self.starved.saturating_add(1);
                Err(DeviceFault::Failed)
            }
        }
    }

    fn back(&mut self) -> Result<(), DeviceFault>
        ensures called { WasCalled (tape_state self.old) (tape_state self.new) (IsErr result) }
        ensures went_back { WentBack (tape_state self.old) (tape_state self.new) result }
        ensures counted { TapeCounted self.old self.new (IsErr result) }
    {
        if self.plan.next_fails() {
            return Err(DeviceFault::Failed);
        }
        self.position = self.position.saturating_sub(1);
        Ok(())
    }

    fn rewind(&mut self) -> Result<(), DeviceFault>
        ensures called { WasCalled (tape_state self.old) (tape_state self.new) (IsErr result) }
        ensures rewound { Rewound (tape_state self.old) (tape_state self.new) result }
        ensures counted { TapeCounted self.old self.new (IsErr result) }
    {
        if self.plan.next_fails() {
            return Err(DeviceFault::Failed);
        }
        self.position = 0;
        Ok(())
    }

    fn end_file(&mut self) -> Result<(), DeviceFault>
        ensures called { WasCalled (tape_state self.old) (tape_state self.new) (IsErr result) }
        ensures ended { EndedFile (tape_state self.old) (tape_state self.new) result }
        ensures counted { TapeCounted self.old self.new (IsErr result) }
    {
        if self.plan.next_fails() {
            return Err(DeviceFault::Failed);
        }
        self.records.truncate(self.position);
        self.finished = false;
        Ok(())
    }

    fn finish(&mut self) -> Result<u64, DeviceFault>
        ensures called { WasCalled (tape_state self.old) (tape_state self.new) (IsErr result) }
        ensures finished { Finished (tape_state self.old) (tape_state self.new) result }
        ensures counted { TapeCounted self.old self.new (IsErr result) }
    {
        if self.plan.next_fails() {
            self.finished = false;
            return Err(DeviceFault::Failed);
        }
        self.finished = true;
        Ok(self.records.len() as u64)
    }
}

/// Hands out a record: into the front of the slice where it fits.
pub(crate) fn give(line: &[u8], into: &mut [u8]) -> Got
    ensures { Gives result line.now into.old into.new }
{
    let count = line.len();
    if count > into.len() {
        return Got::Long(count);
    }
    into[..count].copy_from_slice(line);
    Got::Line(count)
}

/// Cuts off the records from a position on, and puts one there.
fn write_at(records: &mut Vec<Vec<u8>>, position: usize, bytes: &[u8]) -> Result<(), NoMemory>
    requires { position ≤ length records.old.items }
    ensures ok { OnOk result (map (λ r. r.items) records.new.items ≡ written_at position bytes.now (map (λ r. r.items) records.old.items)) }
    ensures room { OnOk result (length records.new.items ≡ position + 1) }
    ensures err { OnErr result (records.new.items ≡ records.old.items) }
{
    let alloc = *records.allocator();
    let record = Vec::from_slice(alloc, bytes)?;
    if position == records.len() {
        records.push(record)?;
    } else {
        records[position] = record;
        records.truncate(position + 1);
    }
    Ok(())
}
