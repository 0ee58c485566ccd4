//! The shelf in memory of a case.

use crate::Stop;
use crate::cases::Case;
use f2c_outside::memory_shelf::MemoryShelf;
use f2c_outside::texts::{Name, NameFail, NoMemory};
use std::alloc::Global;

impl From<NoMemory> for Stop {
    fn from(_error: NoMemory) -> Stop {
        Stop::NoMemory
    }
}

impl From<NameFail> for Stop {
    fn from(_error: NameFail) -> Stop {
        Stop::Failed
    }
}

/// Puts files with a prefix and each number of three digits on a shelf.
fn put_numbered(alloc: Global, shelf: &mut MemoryShelf, prefix: &str) -> Result<(), Stop> {
    for number in 0..1000 {
        let name = format!(in alloc; "{prefix}{number:03}.f")?;
        shelf.set_file(Name::new(alloc, name.as_bytes())?, b"")?;
    }
    Ok(())
}

/// The shelf of a case.
pub fn shelf_of(alloc: Global, case: &Case) -> Result<MemoryShelf, Stop> {
    let mut shelf = MemoryShelf::new(alloc)?;
    shelf.set_input(case.input())?;
    for file in case.present() {
        shelf.set_file(
            Name::new(alloc, file.name.as_bytes())?,
            file.bytes.as_slice(),
        )?;
    }
    for prefix in case.prefixes() {
        put_numbered(alloc, &mut shelf, prefix.as_str())?;
    }
    if let Some(number) = case.failing() {
        let Ok(call) = number.parse::<u64>() else {
            return Err(Stop::Failed);
        };
        shelf.fail_at(call)?;
    }
    Ok(shelf)
}
