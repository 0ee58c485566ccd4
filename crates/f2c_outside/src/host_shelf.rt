//! The shelf of the real files and streams. No clause tells what these hold: it is the trusted edge.

ghost use Rattle.std.specs.Prelude.{◌≡◌, ◌≤◌, length, None, IfOk};
ghost use Rattle.std.specs.Io.KnownBytes.{Keeps, ReadConsumes, WriteAppends};
ghost use Rattle.f2c_outside.specs.Shelf.{Idle, Rose};
ghost use Rattle.f2c_outside.specs.Host.{untold, told_of};

use crate::shelves::{Place, Shelf, ShelfFault};
use crate::texts::Name;
use std::alloc::Global;
use std::io::{ErrorKind, Read, Write};
use std::rt::Files;
use std::{fs, io};

/// The place that is read or written now.
#[derive(Drop)]
enum Activity {
    Nothing,
    Reading(Place),
    Writing(Place),
}

/// The real files, found from the folder where the process stands, and the standard streams.
///
/// `R` reaches the files, standard input and standard output, and `E` standard error.
#[derive(Drop)]
pub struct HostShelf<R: Files + Input + Print + Drop, E: Print + Drop> {
    alloc: Global,
    rt: R,
    errors: E,
    active: Activity,
    file: Option<R::File>,
    faults: u64,
}

impl<R: Files + Input + Print + Drop, E: Print + Drop> HostShelf<R, E> {
    /// A shelf over a runtime, with `errors` as the place Fault. Nothing is active, and no call has failed.
    pub fn new(alloc: Global, rt: R, errors: E) -> HostShelf<R, E>
        ensures { untold result.active result.faults ≡ record { told = None; left = None; active = Idle; faults = 0 } }
    {
        HostShelf {
            alloc,
            rt,
            errors,
            active: Activity::Nothing,
            file: None,
            faults: 0,
        }
    }
}

impl<R: Files + Input + Print + Drop, E: Print + Drop> Shelf for HostShelf<R, E> {
    ghost state = { λ s. untold s.active s.faults };

    fn start_read(&mut self, place: &Place) -> Result<(), ShelfFault> {
        self.active = Activity::Nothing;
        self.file = None;
        let Ok(copy) = place.copy(self.alloc) else {
            return Err(failed(&mut self.faults));
        };
        if let Place::File(name) = place {
            match open_file(&self.rt, name) {
                Ok(file) => self.file = Some(file),
                Err(ShelfFault::Missing) => return Err(ShelfFault::Missing),
                Err(ShelfFault::Failed) => return Err(failed(&mut self.faults)),
            }
        }
        self.active = Activity::Reading(copy);
        Ok(())
    }

    fn take(&mut self, into: &mut [u8]) -> Result<usize, ShelfFault> {
        if let Activity::Reading(_) = &self.active {
            match read_some(&self.rt, &mut self.file, into) {
                Ok(count) => Ok(count),
                Err(_) => Err(failed(&mut self.faults)),
            }
        } else {
            Ok(0)
        }
    }

    fn start_write(&mut self, place: &Place) -> Result<(), ShelfFault> {
        self.active = Activity::Nothing;
        self.file = None;
        let Ok(copy) = place.copy(self.alloc) else {
            return Err(failed(&mut self.faults));
        };
        if let Place::File(name) = place {
            match create_file(&self.rt, name) {
                Ok(file) => self.file = Some(file),
                Err(_) => return Err(failed(&mut self.faults)),
            }
        }
        self.active = Activity::Writing(copy);
        Ok(())
    }

    fn put(&mut self, piece: &[u8]) -> Result<usize, ShelfFault> {
        match write_some(&self.rt, &self.errors, &self.active, &mut self.file, piece) {
            Ok(count) if count > 0 || piece.is_empty() => Ok(count),
            _ => Err(failed(&mut self.faults)),
        }
    }

    fn stop(&mut self) -> Result<(), ShelfFault> {
        self.active = Activity::Nothing;
        let flushed = flush(&mut self.file);
        self.file = None;
        match flushed {
            Ok(()) => Ok(()),
            Err(_) => Err(failed(&mut self.faults)),
        }
    }

    fn is_there(&mut self, name: &Name) -> Result<bool, ShelfFault> {
        let Ok(path) = str::from_utf8(name.as_bytes()) else {
            return Err(failed(&mut self.faults));
        };
        match self.rt.metadata(path) {
            Ok(_) => Ok(true),
            Err(error) if error.kind() == ErrorKind::NotFound => Ok(false),
            Err(_) => Err(failed(&mut self.faults)),
        }
    }
}

/// Counts a fault. A count at the end of its type stays there.
fn failed(faults: &mut u64) -> ShelfFault
    ensures fault { result ≡ ShelfFault.Failed }
    ensures later { faults.old ≤ faults.new }
    ensures rose { Rose faults.old faults.new }
{
    *faults = faults.saturating_add(1);
    ShelfFault::Failed
}

/// Opens a file to be read.
fn open_file<R: Files>(rt: &R, name: &Name) -> Result<R::File, ShelfFault> {
    let Ok(path) = str::from_utf8(name.as_bytes()) else {
        return Err(ShelfFault::Failed);
    };
    match fs::open(rt, path) {
        Ok(file) => Ok(file),
        Err(error) if error.kind() == ErrorKind::NotFound => Err(ShelfFault::Missing),
        Err(_) => Err(ShelfFault::Failed),
    }
}

/// Makes a file empty, or makes it.
fn create_file<R: Files>(rt: &R, name: &Name) -> io::Result<R::File> {
    match str::from_utf8(name.as_bytes()) {
        Ok(path) => fs::create(rt, path),
        Err(_) => Err(io::Error::from(ErrorKind::InvalidInput)),
    }
}

/// Reads from the open file, or from standard input where none is open.
fn read_some<R: Input, F: Read>(rt: &R, file: &mut Option<F>, into: &mut [u8]) -> io::Result<usize>
    ensures fits { IfOk result (λ n. n ≤ length into.old) }
    ensures bytes { ReadConsumes (told_of F.remaining file.old) (told_of F.remaining file.new) result into.new }
{
    match file {
        Some(file) => file.read(into),
        None => rt.reader().read(into),
    }
}

/// Writes to the open file, to standard error where Fault is written, or else to standard output.
fn write_some<R: Print, E: Print, F: Write>(
    rt: &R,
    errors: &E,
    active: &Activity,
    file: &mut Option<F>,
    piece: &[u8],
) -> io::Result<usize>
    ensures fits { IfOk result (λ n. n ≤ length piece.now) }
    ensures bytes { WriteAppends (told_of F.contents file.old) (told_of F.contents file.new) result piece.now }
{
    match (file, active) {
        (Some(file), _) => file.write(piece),
        (None, Activity::Writing(Place::Fault)) => errors.write_some(piece),
        _ => rt.write_some(piece),
    }
}

/// Brings what was written to the open file on its way.
fn flush<F: Write>(file: &mut Option<F>) -> io::Result<()>
    ensures { Keeps (told_of F.contents file.old) (told_of F.contents file.new) }
{
    match file {
        Some(file) => file.flush(),
        None => Ok(()),
    }
}
