//! How a call that reads items ends.

ghost use Rattle.std.specs.Prelude.{◌≡◌};
ghost use Rattle.listed_input.specs.Endings.{passage_of, end_of};

use c_tree::outcome::CFault;
use listed_output::Passage;
use unit_answers::{CallEnd, numbered};

/// Why an item gets no value.
#[derive(Clone, Copy)]
pub(crate) enum ItemEnd {
    /// A fault of the subset.
    Fault(CFault),
    /// The transfer ends with this number.
    Number(i32),
    /// The device of the unit failed.
    Device,
    /// More is to be counted than 64 bits tell.
    Uncounted,
}

/// What became of an item that meets no error.
#[derive(Clone, Copy)]
pub(crate) enum ItemRead {
    /// It was given a value, or keeps its own.
    Given,
    /// A slash stands there, which leaves this item and the later ones.
    Slashed,
}

/// Where an item stands behind a step of its reading.
#[derive(Clone, Copy)]
pub(crate) enum Step {
    /// It is read.
    Read(ItemRead),
    /// It goes on, and so many bytes of its text are done.
    GoesOn(usize),
}

/// Why a call that reads items gives its caller no number.
#[derive(Clone, Copy, Debug, PartialEq, Eq)]
pub enum InputEnd {
    /// As another call on a unit ends.
    Call(CallEnd),
    /// More is to be counted than 64 bits tell: the steps for one item, of which there are so many only where the unit stands behind 2^53
    /// records or more. What such a call replies is not said.
    Uncounted,
}

/// What a call answers whose transfer a number ends.
fn passage(answer: Result<i32, CallEnd>) -> Result<Passage, InputEnd>
    ensures { result ≡ passage_of answer }
{
    match answer {
        Ok(number) => Ok(Passage::Over(number)),
        Err(end) => Err(InputEnd::Call(end)),
    }
}

/// What a call answers where an item gets no value.
pub(crate) fn ended(
    unit: i32,
    on_error: i32,
    on_end: i32,
    end: ItemEnd,
) -> Result<Passage, InputEnd>
    ensures { result ≡ end_of unit on_error on_end end }
{
    match end {
        ItemEnd::Fault(fault) => Err(InputEnd::Call(CallEnd::Fault(fault))),
        ItemEnd::Number(number) => passage(numbered(number, on_error, on_end)),
        ItemEnd::Device => Err(InputEnd::Call(CallEnd::Device(unit))),
        ItemEnd::Uncounted => Err(InputEnd::Uncounted),
    }
}
