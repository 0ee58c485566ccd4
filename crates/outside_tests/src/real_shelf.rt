//! What real files hold, and what goes to the error stream.

ghost use Rattle.f2c_outside.specs.Shelf.{IsSource, IsTarget};

use f2c_outside::host_shelf::HostShelf;
use f2c_outside::shelves::{Place, Shelf, ShelfFault};
use f2c_outside::texts::Name;
use std::cell::Cell;
use std::fmt::Display;
use std::io::ErrorKind;
use std::process::Abort;
use std::rc::Rc;
use std::test::Fail;
use std::{fs, io};

/// Reads from the start of a place and takes up to four bytes, and says whether they are these.
fn gives<S: Shelf>(shelf: &mut S, place: &Place, bytes: &[u8; 4]) -> bool
    requires { IsSource place.now }
{
    let mut into = [0u8; 4];
    shelf.start_read(place).is_ok() && shelf.take(&mut into) == Ok(4) && into == *bytes
}

/// Puts four bytes on a place, and says whether no call failed.
fn holds<S: Shelf>(shelf: &mut S, place: &Place, bytes: &[u8; 4]) -> bool
    requires { IsTarget place.now }
{
    shelf.start_write(place).is_ok() && shelf.put(bytes) == Ok(4) && shelf.stop() == Ok(())
}

#[test]
fn real_files_hold_what_was_put(rt: HostRuntime) -> Result<(), Fail> {
    let mut shelf = HostShelf::new(rt.alloc(), rt, rt.stderr());
    let name = Name::new(rt.alloc(), b"shelf_test.txt")?;
    let place = Place::File(name.copy(rt.alloc())?);
    fs::write(&rt, "shelf_test.txt", b"what it held before".as_slice())?;
    assert!(rt; holds(&mut shelf, &place, b"A\0\nB"));
    assert!(rt; file_holds(&rt, "shelf_test.txt", b"A\0\nB"));
    assert!(rt; gives(&mut shelf, &place, b"A\0\nB"));
    assert!(rt; shelf.take(&mut [0u8; 4]) == Ok(0));
    assert!(rt; shelf.is_there(&name) == Ok(true));
    fs::remove_file(&rt, "shelf_test.txt")?;
    assert!(rt; shelf.is_there(&name) == Ok(false));
    assert!(rt; shelf.start_read(&place) == Err(ShelfFault::Missing));
    Ok(())
}

/// Whether a real file has these bytes.
pub(crate) fn file_holds(rt: &HostRuntime, path: &str, bytes: &[u8]) -> bool {
    match fs::read(rt, path) {
        Ok(read) => read.as_slice() == bytes,
        Err(_) => false,
    }
}

/// An error stream that counts the bytes that it takes, or fails.
#[derive(Drop)]
struct Errors {
    taken: Rc<Cell<usize>>,
    is_failing: bool,
}

impl Print for Errors {
    fn print<D: Display + Drop>(&self, _value: D) -> io::Result<()> {
        Err(io::Error::from(ErrorKind::Other))
    }

    fn println<D: Display + Drop>(&self, _value: D) -> io::Result<()> {
        Err(io::Error::from(ErrorKind::Other))
    }

    fn write_all(&self, bytes: &[u8]) -> io::Result<()> {
        if self.is_failing {
            return Err(io::Error::from(ErrorKind::Other));
        }
        self.taken.set(self.taken.get().saturating_add(bytes.len()));
        Ok(())
    }
}

#[test]
fn fault_goes_to_the_error_stream_alone(rt: HostRuntime) -> Result<(), Fail> {
    for is_failing in [false, true] {
        let taken = Rc::new(rt.alloc(), Cell::new(0usize))?;
        let errors = Errors {
            taken: Rc::clone(&taken)?,
            is_failing,
        };
        let mut shelf = HostShelf::new(rt.alloc(), rt, errors);
        assert!(rt; shelf.start_write(&Place::Fault).is_ok());
        assert_eq!(rt; shelf.put(b"BAD\n") == Ok(4), !is_failing);
        assert_eq!(rt; taken.get(), if is_failing { 0 } else { 4 });
        assert!(rt; shelf.start_write(&Place::Output).is_ok() && shelf.put(b"") == Ok(0));
        assert_eq!(rt; taken.get(), if is_failing { 0 } else { 4 });
    }
    Ok(())
}
