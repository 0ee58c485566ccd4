//! How a call that reads items ends.

ghost use Rattle.std.specs.Prelude.{◌≡◌};
ghost use Rattle.listed_output.specs.Transferring.{over_by};
ghost use Rattle.internal_input.specs.Endings.{end_of};

use c_tree::outcome::CFault;
use listed_output::Passage;
use unit_answers::{CallEnd, numbered};

/// Why an item gets no value.
#[derive(Clone, Copy)]
pub(crate) enum ItemEnd {
    /// A fault of the subset.
    Fault(CFault),
    /// The transfer ends with this number.
    Number(i32),
}

/// What became of an item that meets no error.
#[derive(Clone, Copy)]
pub(crate) enum ItemRead {
    /// It was given a value, or keeps its own.
    Given,
    /// A slash stands there, which leaves this item and the later ones.
    Slashed,
}

/// Where an item stands behind a step of its reading.
#[derive(Clone, Copy)]
pub(crate) enum Step {
    /// It is read.
    Read(ItemRead),
    /// It goes on, and its text has so many bytes so far.
    GoesOn(usize),
}

/// What a call answers whose transfer a number ends.
fn passage(answer: Result<i32, CallEnd>) -> Result<Passage, CallEnd>
    ensures { result ≡ over_by answer }
{
    match answer {
        Ok(number) => Ok(Passage::Over(number)),
        Err(end) => Err(end),
    }
}

/// What a call answers where an item gets no value.
pub(crate) fn ended(on_error: i32, on_end: i32, end: ItemEnd) -> Result<Passage, CallEnd>
    ensures { result ≡ end_of on_error on_end end }
{
    match end {
        ItemEnd::Fault(fault) => Err(CallEnd::Fault(fault)),
        ItemEnd::Number(number) => passage(numbered(number, on_error, on_end)),
    }
}
