//! What a call replies, by what its function answered (CSTR 149, appendix on the run time library).

ghost use Rattle.std.specs.Prelude.{◌≡◌};
ghost use Rattle.unit_library.specs.Replies.{broken_by, given_by, done_by, cut_by, ended_by, started_by, passed_by};

use crate::endings::RunEnding;
use c_tree::outcome::CFault;
use listed_output::{Passage, Start};
use run_library::{CallBreak, LibraryReply, RunBreak};
use unit_answers::CallEnd;

/// A call that has a fault.
pub(crate) fn broken(fault: CFault) -> Result<LibraryReply<RunEnding>, CallBreak>
    ensures { result ≡ broken_by fault }
{
    Err(CallBreak::Break(RunBreak::Fault(fault)))
}

/// A call of a function that gives a number.
pub(crate) fn given(answer: Result<i32, CFault>) -> Result<LibraryReply<RunEnding>, CallBreak>
    ensures { result ≡ given_by answer }
{
    match answer {
        Ok(number) => Ok(LibraryReply::Gives(number)),
        Err(fault) => broken(fault),
    }
}

/// A call of a function that gives nothing.
pub(crate) fn done(answer: Result<(), CFault>) -> Result<LibraryReply<RunEnding>, CallBreak>
    ensures { result ≡ done_by answer }
{
    match answer {
        Ok(()) => Ok(LibraryReply::Void),
        Err(fault) => broken(fault),
    }
}

/// A call that ended without a number for its caller.
pub(crate) fn cut(end: CallEnd) -> Result<LibraryReply<RunEnding>, CallBreak>
    ensures { result ≡ cut_by end }
{
    match end {
        CallEnd::Fault(fault) => broken(fault),
        CallEnd::Ended(number) => Ok(LibraryReply::Stops(RunEnding::Io(number))),
        CallEnd::Device(unit) => Err(CallBreak::Device(unit)),
    }
}

/// A call on an external unit.
pub(crate) fn ended(answer: Result<i32, CallEnd>) -> Result<LibraryReply<RunEnding>, CallBreak>
    ensures { result ≡ ended_by answer }
{
    match answer {
        Ok(number) => Ok(LibraryReply::Gives(number)),
        Err(end) => cut(end),
    }
}

/// The start of a transfer.
pub(crate) fn started(start: Result<Start, CallEnd>) -> Result<LibraryReply<RunEnding>, CallBreak>
    ensures { result ≡ started_by start }
{
    match start {
        Ok(Start::Begins(_)) => Ok(LibraryReply::Gives(0)),
        Ok(Start::Answers(number)) => Ok(LibraryReply::Gives(number)),
        Err(end) => cut(end),
    }
}

/// Items of a transfer.
pub(crate) fn passed(
    passage: Result<Passage, CallEnd>,
) -> Result<LibraryReply<RunEnding>, CallBreak>
    ensures { result ≡ passed_by passage }
{
    match passage {
        Ok(Passage::GoesOn) => Ok(LibraryReply::Gives(0)),
        Ok(Passage::Over(number)) => Ok(LibraryReply::Gives(number)),
        Err(end) => cut(end),
    }
}
