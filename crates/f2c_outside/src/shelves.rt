//! The shelf: the files and the three streams of a translation or a run, read and written in pieces.

ghost use Rattle.std.specs.Prelude.{◌≡◌, IfOk};
ghost use Rattle.f2c_outside.specs.Shelf.{ShelfState, IsSource, IsTarget, IsWriting, HasCause, StartedRead, Took, StartedWrite, Put, Stopped, Asked};

use crate::texts::{Name, NoMemory};
use std::alloc::Global;
use thiserror::Error;

/// A place that can be read or written.
#[derive(Drop)]
pub enum Place {
    /// Standard input, which can only be read.
    Input,
    /// Standard output, which can only be written.
    Output,
    /// Standard error, which can only be written.
    Fault,
    /// A file.
    File(Name),
}

impl Place {
    /// The same place, in memory of its own.
    pub fn copy(&self, alloc: Global) -> Result<Place, NoMemory>
        ensures { IfOk result (λ place. place ≡ self.now) }
    {
        Ok(match self {
            Place::Input => Place::Input,
            Place::Output => Place::Output,
            Place::Fault => Place::Fault,
            Place::File(name) => Place::File(name.copy(alloc)?),
        })
    }
}

/// Why a call of a shelf did not do its work.
#[derive(Clone, Copy, Debug, PartialEq, Eq, Error)]
pub enum ShelfFault {
    /// The shelf failed; its count of faults rose.
    #[error("shelf fault")]
    Failed,
    /// There is no file of that name.
    #[error("not there")]
    Missing,
}

/// The files by name and the three streams, of which one place at a time is read or written.
///
/// Its state says what it holds, where it tells that, which place is active, and how many calls have
/// failed. That count never falls, and `Failed` comes exactly where it rose in the call.
pub trait Shelf {
    ghost state: { Self → ShelfState };

    /// Starts to read Input or a file from its first byte, and ends what was active before.
    /// `Missing` comes exactly where the call does not fail and no file has the name.
    fn start_read(&mut self, place: &Place) -> Result<(), ShelfFault>
        requires { IsSource place.now }
        ensures cause { HasCause (state self.old).faults (state self.new).faults result }
        ensures started { StartedRead place.now (state self.old) (state self.new) result };

    /// Moves the next bytes of the place that is being read to the front of `into`, and answers how
    /// many; 0 at its end, of an empty slice, and where nothing is being read.
    fn take(&mut self, into: &mut [u8]) -> Result<usize, ShelfFault>
        ensures cause { HasCause (state self.old).faults (state self.new).faults result }
        ensures took { Took (state self.old) (state self.new) into.old into.new result };

    /// Starts to write Output, Fault or a file, and ends what was active before. A file is made
    /// empty; Output and Fault keep what was put.
    fn start_write(&mut self, place: &Place) -> Result<(), ShelfFault>
        requires { IsTarget place.now }
        ensures cause { HasCause (state self.old).faults (state self.new).faults result }
        ensures started { StartedWrite place.now (state self.old) (state self.new) result };

    /// Puts the first bytes of the piece behind what the place that is being written holds, and
    /// answers how many; at least one of a piece that is not empty.
    fn put(&mut self, piece: &[u8]) -> Result<usize, ShelfFault>
        requires { IsWriting (state self.old).active }
        ensures cause { HasCause (state self.old).faults (state self.new).faults result }
        ensures put { Put piece.now (state self.old) (state self.new) result };

    /// Ends what is active. Where nothing is, nothing happens.
    fn stop(&mut self) -> Result<(), ShelfFault>
        ensures cause { HasCause (state self.old).faults (state self.new).faults result }
        ensures stopped { Stopped (state self.old) (state self.new) result };

    /// Whether a file has this name.
    fn is_there(&mut self, name: &Name) -> Result<bool, ShelfFault>
        ensures cause { HasCause (state self.old).faults (state self.new).faults result }
        ensures asked { Asked name.now (state self.old) (state self.new) result };
}
