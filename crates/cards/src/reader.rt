//! From the bytes of a file to its statements, or to its first fault.

ghost use Rattle.std.specs.Prelude.{◌≡◌, ◌<◌, ◌==◌, length, take, map, nat_lt, slice_get, None, Some, IfOk, IfErr};
ghost use Rattle.fortran_text.specs.FirstFault.{most_bytes, most_cards, judged, too_long, FaultOfCards, FaultOfFile, IsSound, IsFailure};
ghost use Rattle.fortran_text.specs.Lines.{lines};
ghost use Rattle.fortran_text.specs.StatementsOfFile.{file_cards};
ghost use Rattle.cards.specs.Passes.{IsReading, IsRefusal};

use crate::faults::{Fault, at_limit, first_of_file, first_of_included, unended};
use crate::grouping::closed;
use crate::lines::ends_with;
use crate::pass::{MOST_CARDS, Pass, pass_over};
use f_tree::{Fail, Kind, Options, Refusal};
use fortran_text::Statement;
use plain_data::Items;
use std::alloc::{AllocError, Global};
use std::marker::Model;

/// The longest file, in bytes.
const MOST_BYTES: usize = 16_777_216;

/// The statements of a file, in their order, and the number of its cards.
#[derive(Drop)]
pub struct Cards {
    statements: Items<Statement>,
    cards: u32,
}

impl Model for Cards {
    ghost use Rattle.fortran_text.specs.StatementsOfFile.{FileCards};

    ghost Value = { FileCards };

    ghost view = { λ c. record { statements = c.statements; cards = c.cards } };
}

impl Cards {
    /// The statements, in their order.
    pub fn statements(&self) -> &[Statement]
        ensures { result.now ≡ self.now.statements }
    {
        self.statements.as_slice()
    }

    /// How many statements the file has.
    pub fn len(&self) -> usize
        ensures { result ≡ length self.now.statements }
    {
        self.statements.len()
    }

    /// Whether the file has no statement.
    pub fn is_empty(&self) -> bool
        ensures { result ≡ (length self.now.statements == 0) }
    {
        self.statements.len() == 0
    }

    /// The label of a statement, by its place from 0; none where it has no label.
    pub fn label(&self, i: usize) -> Option<u32>
        requires { i < length self.now.statements }
        ensures { slice_get (map (λ s. s.label) self.now.statements) i ≡ Some result }
    {
        self.statements.as_slice()[i].label
    }

    /// The text of a statement, blanks and all.
    pub fn text(&self, i: usize) -> &[u8]
        requires { i < length self.now.statements }
        ensures { slice_get (map (λ s. s.text) self.now.statements) i ≡ Some result.now }
    {
        self.statements.as_slice()[i].text.as_slice()
    }

    /// The number of the initial card of a statement.
    pub fn first_card(&self, i: usize) -> u32
        requires { i < length self.now.statements }
        ensures { slice_get (map (λ s. s.card) self.now.statements) i ≡ Some result }
    {
        self.statements.as_slice()[i].card
    }

    /// The number of the file that a statement stands in.
    pub fn file(&self, i: usize) -> usize
        requires { i < length self.now.statements }
        ensures { slice_get (map (λ s. s.file) self.now.statements) i ≡ Some result }
    {
        self.statements.as_slice()[i].file
    }

    /// How many cards the file has.
    pub fn cards(&self) -> u32
        ensures { result ≡ self.now.cards }
    {
        self.cards
    }
}

/// What is read of a file.
#[derive(Drop)]
struct Reading {
    statements: Items<Statement>,
    cards: u32,
    /// The first fault of the cards.
    fault: Option<Fault>,
    /// The card past a limit.
    too_long: Option<u32>,
}

/// The statements of a file with the given number, from its bytes.
///
/// # Errors
///
/// The first of the rows F01 to F07 that holds, by the card and then by the number of the row, or want
/// of memory.
pub fn read_cards(alloc: Global, bytes: &[u8], file: usize, opts: &Options) -> Result<Cards, Fail>
    ensures sound { IfOk result (λ _. IsSound (FaultOfFile opts.now.long_cards bytes.now)) }
    ensures read { IfOk result (λ cards. cards ≡ file_cards file bytes.now) }
    ensures failed { IfErr result (IsFailure file (FaultOfFile opts.now.long_cards bytes.now)) }
{
    let reading = read_whole(alloc, bytes, file, opts.long_cards)?;
    let end = unended(reading.statements.as_slice());
    answer(
        file,
        first_of_file(reading.fault, reading.too_long, end),
        reading,
    )
}

/// The statements of an included file with the given number, from its bytes.
///
/// # Errors
///
/// The first of the rows F01 to F05 and F07 that holds, by the card and then by the number of the row,
/// or want of memory.
pub fn read_included(
    alloc: Global,
    bytes: &[u8],
    file: usize,
    opts: &Options,
) -> Result<Cards, Fail>
    ensures sound { IfOk result (λ _. IsSound (FaultOfCards opts.now.long_cards bytes.now)) }
    ensures read { IfOk result (λ cards. cards ≡ file_cards file bytes.now) }
    ensures failed { IfErr result (IsFailure file (FaultOfCards opts.now.long_cards bytes.now)) }
{
    let reading = read_whole(alloc, bytes, file, opts.long_cards)?;
    answer(
        file,
        first_of_included(reading.fault, reading.too_long),
        reading,
    )
}

/// The statements of a file with the given number, from its bytes, whatever its cards are: for what only cuts or lists a file.
///
/// # Errors
///
/// The row F07, or want of memory.
pub fn read_unjudged(alloc: Global, bytes: &[u8], file: usize) -> Result<Cards, Fail>
    ensures within { IfOk result (λ _. too_long bytes.now ≡ None) }
    ensures read { IfOk result (λ cards. cards ≡ file_cards file bytes.now) }
    ensures failed { IfErr result (IsFailure file (λ card kind. (too_long bytes.now ≡ Some card) × (kind ≡ Kind.FileTooLong))) }
{
    let reading = read_whole(alloc, bytes, file, false)?;
    answer(file, at_limit(reading.too_long), reading)
}

/// The refusal by a fault, else what was read.
fn answer(file: usize, fault: Option<Fault>, reading: Reading) -> Result<Cards, Fail>
    ensures read { IfOk result (λ cards. (fault ≡ None) × (cards ≡ record { statements = reading.statements; cards = reading.cards })) }
    ensures failed { IfErr result (IsRefusal file fault) }
{
    let Reading {
        statements,
        cards,
        ..
    } = reading;
    match fault {
        Some(fault) => Err(Fail::Refused(Refusal {
            file,
            card: fault.card,
            kind: fault.kind,
        })),
        None => Ok(Cards { statements, cards }),
    }
}

/// The first bytes of a file, up to the limit.
fn within(bytes: &[u8]) -> &[u8]
    ensures { result.now ≡ take most_bytes bytes.now }
{
    &bytes[..bytes.len().min(MOST_BYTES)]
}

/// F07: the card past a limit, if any, from the front of the file up to the limit, the number of the
/// cards that were read of it, and whether it has more.
fn past_limit(bytes: &[u8], front: &[u8], cards: u32, more: bool) -> Option<u32>
    requires front { front.now ≡ take most_bytes bytes.now }
    requires cards { cards ≡ length (judged bytes.now) }
    requires more { more ≡ nat_lt most_cards (length (lines (take most_bytes bytes.now))) }
    ensures { result ≡ too_long bytes.now }
{
    if more {
        Some(MOST_CARDS + 1)
    } else if bytes.len() <= MOST_BYTES {
        None
    } else if ends_with(front, b'\n') {
        Some(cards + 1)
    } else {
        Some(cards)
    }
}

/// What a file says and what is wrong with it, but for F06.
fn read_whole(
    alloc: Global,
    bytes: &[u8],
    file: usize,
    refused: bool,
) -> Result<Reading, AllocError>
    ensures { IfOk result (IsReading file refused bytes.now) }
{
    let front = within(bytes);
    let Pass {
        group,
        fault,
        cards,
        more,
    } = pass_over(alloc, front, file, refused)?;
    Ok(Reading {
        statements: closed(group)?,
        cards,
        fault,
        too_long: past_limit(bytes, front, cards, more),
    })
}
