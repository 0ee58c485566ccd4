//! The shelf of the real files over a file and streams that fail, take and give less than is asked for, or cannot be opened
//! or flushed. No clause says what these took. How often a call failed is a clause of each: the count rises exactly where
//! it answers `Failed`.

ghost use Rattle.std.specs.Prelude.{IfOk};
ghost use Rattle.f2c_outside.specs.Shelf.{IsSource, IsTarget};

use crate::troubled_host::{Host, Limits, Stream, TEXT};
use f2c_outside::host_shelf::HostShelf;
use f2c_outside::shelves::{Place, Shelf, ShelfFault};
use f2c_outside::texts::{Name, NameFail};
use std::alloc::Global;
use std::cell::Cell;
use std::io::ErrorKind;
use std::process::Abort;
use std::test::Fail;

/// How many bytes of the text went through the file, the standard output and the error stream.
#[derive(Drop)]
struct Passed {
    file: Cell<usize>,
    output: Cell<usize>,
    fault: Cell<usize>,
}

impl Passed {
    /// No byte has passed.
    fn new() -> Passed {
        Passed {
            file: Cell::new(0),
            output: Cell::new(0),
            fault: Cell::new(0),
        }
    }

    /// The three numbers.
    fn counts(&self) -> (usize, usize, usize) {
        (self.file.get(), self.output.get(), self.fault.get())
    }
}

/// A shelf over a file and streams of these limits. Where there is a refusal, no file can be opened.
fn shelf_over(
    alloc: Global,
    passed: &Passed,
    limits: Limits,
    refusal: Option<ErrorKind>,
) -> HostShelf<Host<'_>, Stream<'_>> {
    let file = Stream {
        passed: &passed.file,
        limits,
    };
    let output = Stream {
        passed: &passed.output,
        limits,
    };
    let errors = Stream {
        passed: &passed.fault,
        limits,
    };
    let host = Host {
        file,
        output,
        refusal,
    };
    HostShelf::new(alloc, host, errors)
}

/// What a call answers by which so many bytes passed: a fault where it may not be none.
fn answer(count: usize, may_be_none: bool) -> Result<usize, ShelfFault> {
    if count > 0 || may_be_none {
        Ok(count)
    } else {
        Err(ShelfFault::Failed)
    }
}

/// Puts the text on a place, and then what is left of it. Says whether each call answers how many bytes the stream took, and
/// fails where it took none.
fn puts_in_parts<S: Shelf>(shelf: &mut S, place: &Place, limits: Limits) -> bool
    requires { IsTarget place.now }
{
    let first = limits.part(0, TEXT.len());
    let left = TEXT.get(first..).unwrap_or(b"");
    let second = limits.part(first, left.len());
    shelf.start_write(place).is_ok()
        && shelf.put(TEXT) == answer(first, false)
        && shelf.put(left) == answer(second, left.is_empty())
        && shelf.stop() == Ok(())
}

/// Takes from a place twice. Says whether each call answers how many bytes the stream gave, and these, and fails where it failed.
fn takes_in_parts<S: Shelf>(shelf: &mut S, place: &Place, limits: Limits) -> bool
    requires { IsSource place.now }
{
    let mut into = [0u8; 5];
    let mut next = [0u8; 5];
    let first = limits.part(0, into.len());
    let second = limits.part(first, next.len());
    let left = TEXT.get(first..).unwrap_or(b"");
    shelf.start_read(place).is_ok()
        && shelf.take(&mut into) == answer(first, !limits.is_failing)
        && shelf.take(&mut next) == answer(second, !limits.is_failing)
        && into.starts_with(TEXT.get(..first).unwrap_or(b""))
        && next.starts_with(left.get(..second).unwrap_or(b""))
}

/// So many bytes at once, so many together, and a failure behind them or none.
fn limits_of(most: usize, room: usize, is_failing: bool) -> Limits {
    Limits {
        most,
        room,
        is_failing,
        is_flushing: true,
    }
}

/// The place of the file.
fn file_place(alloc: Global) -> Result<Place, NameFail>
    ensures source { IfOk result IsSource }
    ensures target { IfOk result IsTarget }
{
    let name = Name::new(alloc, b"FILE")?;
    Ok(Place::File(name))
}

/// Puts the text in parts on a file, on the standard output, and on Fault. Says whether each call answers what went out, and
/// each place took what was put on it alone.
fn puts_on_each_place(alloc: Global, limits: Limits) -> Result<bool, NameFail> {
    let passed = Passed::new();
    let mut shelf = shelf_over(alloc, &passed, limits, None);
    let count = limits.most.saturating_mul(2).min(limits.room);
    let file = file_place(alloc)?;
    Ok(
        puts_in_parts(&mut shelf, &file, limits)
            && passed.counts() == (count, 0, 0)
            && puts_in_parts(&mut shelf, &Place::Output, limits)
            && passed.counts() == (count, count, 0)
            && puts_in_parts(&mut shelf, &Place::Fault, limits)
            && passed.counts() == (count, count, count),
    )
}

/// Whether it is so with so many bytes together, failing behind them or not.
fn puts_with_each_room(alloc: Global, most: usize) -> Result<bool, NameFail> {
    let mut is_right = true;
    for room in 0..=TEXT.len() {
        let ends = puts_on_each_place(alloc, limits_of(most, room, false))?;
        let fails = puts_on_each_place(alloc, limits_of(most, room, true))?;
        is_right = is_right && ends && fails;
    }
    Ok(is_right)
}

/// A shelf that answers the length of the piece where the stream took less, or that answers success where it took none or
/// failed, says more than what went out. One that goes on with the file when Fault or Output is started, or puts Fault on
/// the standard output, leaves other numbers.
#[test]
fn a_put_answers_what_went_out(rt: HostRuntime) -> Result<(), Fail> {
    for most in 1..=TEXT.len() {
        assert!(rt; puts_with_each_room(rt.alloc(), most)?, "{most} at once");
    }
    Ok(())
}

/// Takes from a file in parts. Says whether each call answers what came, and no more passed.
fn takes_from_file(alloc: Global, limits: Limits) -> Result<bool, NameFail> {
    let passed = Passed::new();
    let mut shelf = shelf_over(alloc, &passed, limits, None);
    let count = limits.most.saturating_mul(2).min(limits.room);
    let file = file_place(alloc)?;
    Ok(takes_in_parts(&mut shelf, &file, limits) && passed.counts() == (count, 0, 0))
}

/// Whether it is so with so many bytes together, failing behind them or not.
fn takes_with_each_room(alloc: Global, most: usize) -> Result<bool, NameFail> {
    let mut is_right = true;
    for room in 0..=TEXT.len() {
        let ends = takes_from_file(alloc, limits_of(most, room, false))?;
        let fails = takes_from_file(alloc, limits_of(most, room, true))?;
        is_right = is_right && ends && fails;
    }
    Ok(is_right)
}

/// A shelf that answers the length of the slice where the file gave less, or that answers an end where it failed, says other
/// than what came.
#[test]
fn a_take_answers_what_came(rt: HostRuntime) -> Result<(), Fail> {
    for most in 1..=TEXT.len() {
        assert!(rt; takes_with_each_room(rt.alloc(), most)?, "{most} at once");
    }
    Ok(())
}

/// Puts a piece on a place, and stops twice. Says whether the piece went out whole, the first stop answers so, and the
/// second, where nothing is open, succeeds.
fn stops_with<S: Shelf>(
    shelf: &mut S,
    place: &Place,
    piece: &[u8],
    stopped: Result<(), ShelfFault>,
) -> bool
    requires { IsTarget place.now }
{
    shelf.start_write(place).is_ok()
        && shelf.put(piece) == Ok(piece.len())
        && shelf.stop() == stopped
        && shelf.stop() == Ok(())
}

/// Puts so many bytes on a file that can be flushed or not. Says whether `stop` answers so, and these bytes alone went out.
fn stops_as_it_flushes(alloc: Global, count: usize, is_flushing: bool) -> Result<bool, NameFail> {
    let limits = Limits {
        most: TEXT.len(),
        room: TEXT.len(),
        is_failing: true,
        is_flushing,
    };
    let passed = Passed::new();
    let mut shelf = shelf_over(alloc, &passed, limits, None);
    let stopped = if is_flushing {
        Ok(())
    } else {
        Err(ShelfFault::Failed)
    };
    let file = file_place(alloc)?;
    let piece = TEXT.get(..count).unwrap_or(b"");
    Ok(stops_with(&mut shelf, &file, piece, stopped) && passed.counts() == (count, 0, 0))
}

/// A shelf that answers success where the file cannot be flushed, or that does not flush it, loses the failure.
#[test]
fn a_flush_that_fails_is_told(rt: HostRuntime) -> Result<(), Fail> {
    for count in 0..=TEXT.len() {
        assert!(rt;
            stops_as_it_flushes(rt.alloc(), count, true)?,
            "{count}, flushed"
        );
        assert!(rt;
            stops_as_it_flushes(rt.alloc(), count, false)?,
            "{count}, not flushed"
        );
    }
    Ok(())
}

/// A shelf that takes another error for a file that is not there reads a file that it may not open as missing; one that goes on
/// where a file cannot be made puts its text on the standard output.
#[test]
fn only_a_file_that_is_not_there_is_missing(rt: HostRuntime) -> Result<(), Fail> {
    use ErrorKind::{InvalidInput, IsADirectory, NotADirectory, NotFound, Other, PermissionDenied};
    let name = Name::new(rt.alloc(), b"FILE")?;
    let limits = Limits {
        most: TEXT.len(),
        room: TEXT.len(),
        is_failing: false,
        is_flushing: true,
    };
    for kind in [
        NotFound,
        PermissionDenied,
        NotADirectory,
        IsADirectory,
        InvalidInput,
        Other,
    ] {
        let passed = Passed::new();
        let mut shelf = shelf_over(rt.alloc(), &passed, limits, Some(kind));
        let file = Place::File(name.copy(rt.alloc())?);
        let (read, there) = if kind == NotFound {
            (ShelfFault::Missing, Ok(false))
        } else {
            (ShelfFault::Failed, Err(ShelfFault::Failed))
        };
        assert!(rt; shelf.start_read(&file) == Err(read), "{kind:?}");
        assert!(rt; shelf.is_there(&name) == there, "{kind:?}");
        assert!(rt;
            shelf.start_write(&file) == Err(ShelfFault::Failed),
            "{kind:?}"
        );
        assert_eq!(rt; passed.counts(), (0, 0, 0), "{kind:?}");
    }
    Ok(())
}
