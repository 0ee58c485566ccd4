//! The lines that outcomes write on Fault. They are put in pieces, so that a message takes no memory.

ghost use Rattle.std.specs.Prelude.{◌≡◌};
ghost use Rattle.outcomes.specs.Lines.{shown, file_shown, word_shown, row_start, refusal_line, bad_word_line, not_prototype_line, no_free_name_line, line_of};
ghost use Rattle.outcomes.specs.Outcomes.{IsSilent};
ghost use Rattle.shelf_texts.specs.Messages.{Said};
ghost use Rattle.f2c_outside.specs.Texts.{word_at};

use crate::outcome::Outcome;
use f_tree::{Refusal, Text};
use f2c_outside::shelves::{Place, Shelf};
use f2c_outside::texts::Words;
use itoa::Buffer;
use shelf_texts::{say, say_two};

/// A place as a message names it: a file by its name, a stream in angle brackets.
pub fn place_shown(place: &Place) -> &[u8]
    ensures { result.now ≡ shown place.now }
{
    match place {
        Place::Input => b"<stdin>",
        Place::Output => b"<stdout>",
        Place::Fault => b"<stderr>",
        Place::File(name) => name.as_bytes(),
    }
}

/// The word with this number, or that it is missing where there is none.
fn word_or_missing(words: &Words, number: usize) -> &[u8]
    ensures { result.now ≡ word_shown (word_at number words.now) }
{
    match words.get(number) {
        Some(word) => word,
        None => b"missing",
    }
}

/// What stands before the number of a row of refusals, so that it has two digits at least.
fn before_row(number: u8) -> &'static [u8]
    ensures { result.now ≡ row_start number }
{
    if number < 10 { b": F0" } else { b": F" }
}

/// The file of a refusal as a message gives it.
fn file_or_input(name: &Option<Text>) -> &[u8]
    ensures { result.now ≡ file_shown name.now }
{
    match name {
        Some(name) => name.as_slice(),
        None => b"<stdin>",
    }
}

/// Says `f2c: FILE:CARD: F11 TEXT`.
#[tactic(auto, using(crate::proofs::MessageLemmas::refusal_parts))]
fn say_refusal<H: Shelf>(shelf: &mut H, refusal: &Refusal, name: &Option<Text>)
    ensures { Said (refusal_line name.now refusal.now) (H.state shelf.old) (H.state shelf.new) }
{
    let number = refusal.kind.number();
    let mut card = Buffer::new();
    let mut row = Buffer::new();
    let file: [&[u8]; 3] = [b"f2c: ", file_or_input(name), b":"];
    let rest: [&[u8]; 6] = [
        card.format(refusal.card).as_bytes(),
        before_row(number),
        row.format(number).as_bytes(),
        b" ",
        refusal.kind.text(),
        b"\n",
    ];
    say_two(shelf, &file, &rest);
}

/// Says `f2c: word I: WORD`.
fn say_bad_word<H: Shelf>(shelf: &mut H, words: &Words, number: usize)
    ensures { Said (bad_word_line words.now number) (H.state shelf.old) (H.state shelf.new) }
{
    let mut printed = Buffer::new();
    let pieces: [&[u8]; 5] = [
        b"f2c: word ",
        printed.format(number).as_bytes(),
        b": ",
        word_or_missing(words, number),
        b"\n",
    ];
    say(shelf, &pieces);
}

/// Says `f2c: FILE:LINE: not a prototype`.
fn say_not_prototype<H: Shelf>(shelf: &mut H, name: &[u8], line: usize)
    ensures { Said (not_prototype_line name.now line) (H.state shelf.old) (H.state shelf.new) }
{
    let mut printed = Buffer::new();
    let pieces: [&[u8]; 5] = [
        b"f2c: ",
        name,
        b":",
        printed.format(line).as_bytes(),
        b": not a prototype\n",
    ];
    say(shelf, &pieces);
}

/// Says `f2c: no free name for piece K`.
fn say_no_free_name<H: Shelf>(shelf: &mut H, number: usize)
    ensures { Said (no_free_name_line number) (H.state shelf.old) (H.state shelf.new) }
{
    let mut printed = Buffer::new();
    let pieces: [&[u8]; 3] = [
        b"f2c: no free name for piece ",
        printed.format(number).as_bytes(),
        b"\n",
    ];
    say(shelf, &pieces);
}

/// Says the line of an outcome. A command that did its work has none.
pub fn say_outcome<H: Shelf>(shelf: &mut H, words: &Words, outcome: &Outcome)
    ensures said { Said (line_of words.now outcome.now) (H.state shelf.old) (H.state shelf.new) }
    ensures silent { IsSilent outcome.now → H.state shelf.new ≡ H.state shelf.old }
{
    match outcome {
        Outcome::Done | Outcome::Disagree | Outcome::Changed => {}
        Outcome::Refused(refusal, name) => say_refusal(shelf, refusal, name),
        Outcome::NotPrototype(name, line) => say_not_prototype(shelf, name.as_slice(), *line),
        Outcome::BadWord(number) => say_bad_word(shelf, words, *number),
        Outcome::NoFreeName(number) => say_no_free_name(shelf, *number),
        Outcome::NotThere(name) => {
            let pieces: [&[u8]; 3] = [b"f2c: ", name.as_slice(), b": not there\n"];
            say(shelf, &pieces);
        }
        Outcome::Unread(place) | Outcome::Unwritten(place) => {
            let pieces: [&[u8]; 3] = [b"f2c: ", place_shown(place), b": shelf fault\n"];
            say(shelf, &pieces);
        }
        Outcome::NoMemory => {
            let pieces: [&[u8]; 1] = [b"f2c: out of memory\n"];
            say(shelf, &pieces);
        }
    }
}
