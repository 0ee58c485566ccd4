//! The names of the files that are made, as standard output has them.

ghost use Rattle.std.specs.Prelude.{◌≡◌, IfOk};
ghost use Rattle.split_command.specs.Listing.{listing};

use f2c_outside::texts::{Name, NoMemory};
use std::alloc::Global;

/// Each name on a line of its own.
pub(crate) fn listing(alloc: Global, names: &[Name]) -> Result<Vec<u8>, NoMemory>
    ensures { IfOk result (λ text. text.items ≡ listing names.now) }
{
    let mut text = Vec::new(alloc);
    for name in names {
        text.extend_from_slice(name.as_bytes())?;
        text.push(b'\n')?;
    }
    Ok(text)
}
