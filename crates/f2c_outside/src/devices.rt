//! The device: what an external unit is connected to (ANSI X3.9-1978, section 12).

ghost use Rattle.std.specs.Prelude.{◌≡◌, IsErr};
ghost use Rattle.f2c_outside.specs.Device.{DeviceState, WasCalled, DidRead, Wrote, WentBack, Rewound, EndedFile, Finished};

use thiserror::Error;

/// What a read found.
#[derive(Clone, Copy, Debug, PartialEq, Eq)]
pub enum Got {
    /// A record of so many bytes, which stand in front of the slice.
    Line(usize),
    /// No record is left.
    End,
    /// A record of so many bytes, more than the slice has.
    Long(usize),
    /// The device failed.
    Failed,
}

/// Why a call of a device did not do its work.
#[derive(Clone, Copy, Debug, PartialEq, Eq, Error)]
pub enum DeviceFault {
    /// The device failed; its count of faults rose.
    #[error("device fault")]
    Failed,
}

/// A sequence of records with a position among them.
///
/// Its state says the records, where it tells them, the position, how many calls there have been, and
/// how many of them have failed. That count never falls, and a call fails exactly where it rose.
pub trait Device: Drop {
    ghost device_state: { Self → DeviceState };

    /// Reads the record at the position into the front of `into`, and moves behind it.
    fn read_record(&mut self, into: &mut [u8]) -> Got
        ensures called { WasCalled (device_state self.old) (device_state self.new) (result ≡ Got.Failed) }
        ensures read { DidRead result (device_state self.old) (device_state self.new) into.old into.new };

    /// Cuts off the records from the position on, writes one, and stands behind it.
    fn write_record(&mut self, bytes: &[u8]) -> Result<(), DeviceFault>
        ensures called { WasCalled (device_state self.old) (device_state self.new) (IsErr result) }
        ensures wrote { Wrote bytes.now (device_state self.old) (device_state self.new) result };

    /// Goes back by one record, and does nothing before the first.
    fn back(&mut self) -> Result<(), DeviceFault>
        ensures called { WasCalled (device_state self.old) (device_state self.new) (IsErr result) }
        ensures went_back { WentBack (device_state self.old) (device_state self.new) result };

    /// Goes before the first record.
    fn rewind(&mut self) -> Result<(), DeviceFault>
        ensures called { WasCalled (device_state self.old) (device_state self.new) (IsErr result) }
        ensures rewound { Rewound (device_state self.old) (device_state self.new) result };

    /// Cuts off the records from the position on.
    fn end_file(&mut self) -> Result<(), DeviceFault>
        ensures called { WasCalled (device_state self.old) (device_state self.new) (IsErr result) }
        ensures ended { EndedFile (device_state self.old) (device_state self.new) result };

    /// Brings every record to where it is to stay, and answers how many there are.
    fn finish(&mut self) -> Result<u64, DeviceFault>
        ensures called { WasCalled (device_state self.old) (device_state self.new) (IsErr result) }
        ensures finished { Finished (device_state self.old) (device_state self.new) result };
}
