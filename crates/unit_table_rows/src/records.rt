//! What a device puts into the slice that it reads into.

ghost use Rattle.std.specs.Prelude.{◌≡◌, ℕ, ◌++◌, drop, length};
ghost use Rattle.f2c_outside.specs.Device.{AtPosition};

use f2c_outside::devices::{Device, Got};

/// Reads a record: where it fits, the bytes of the record at the position stand in the front of the slice, and what stood behind them stays.
pub fn read_device<D: Device>(device: &mut D, into: &mut [u8]) -> Got
    ensures { (n : ℕ) → result ≡ Got.Line n → AtPosition (D.device_state device.old) (λ line. into.new ≡ line ++ drop (length line) into.old) }
{
    device.read_record(into)
}
