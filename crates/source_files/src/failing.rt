//! Why a source was not read.

ghost use Rattle.std.specs.Prelude.{◌≡◌};
ghost use Rattle.source_files.specs.declared.failing.SourceFail.TheVariants as source_fail;

use f_tree::Text;
use f2c_outside::shelves::Place;
use f2c_outside::texts::NoMemory;
use std::alloc::{AllocError, AllocFailed};

/// Why a source was not read.
#[derive(Drop)]
pub enum SourceFail {
    /// The file of this name is to be read and is not there.
    NotThere(Text),
    /// The shelf failed while this place was being read.
    Unread(Place),
    /// Memory ran out.
    NoMemory,
}

impl From<NoMemory> for SourceFail {
    ghost from_gives = { λ _ fail. fail ≡ source_fail.NoMemory };

    fn from(_refused: NoMemory) -> SourceFail {
        SourceFail::NoMemory
    }
}

impl From<AllocError> for SourceFail {
    ghost from_gives = { λ _ fail. fail ≡ source_fail.NoMemory };

    fn from(_refused: AllocError) -> SourceFail {
        SourceFail::NoMemory
    }
}

impl<T: Drop> From<AllocFailed<T>> for SourceFail {
    ghost from_gives = { λ _ fail. fail ≡ source_fail.NoMemory };

    fn from(_refused: AllocFailed<T>) -> SourceFail {
        SourceFail::NoMemory
    }
}
