//! The command that splits a file, as the program gives its outcome.

ghost use Rattle.std.specs.Prelude.{◌≡◌, IfOk};
ghost use Rattle.f2c_outside.specs.Shelf.{IsSource};
ghost use Rattle.f2c_outside.specs.Texts.{IsName};
ghost use Rattle.f2c_outside.specs.declared.shelves.Place.TheVariants as place_of_name;
ghost use Rattle.command_words.specs.CommandWords.{place_from};
ghost use Rattle.f2c_program.specs.SplitOutcomes.{IsOrigin, IsRefusedAt, IsSplitOutcome, SplitRan};

use command_words::Origin;
use f_tree::Refusal;
use f2c_outside::shelves::{Place, Shelf};
use f2c_outside::texts::{Name, NameFail, NoMemory, Words};
use outcomes::{Outcome, name_of_place, place_not_there};
use split_command::{SplitFail, split_place};
use std::alloc::Global;

/// The file of this name.
fn file_of(alloc: Global, name: &[u8]) -> Result<Place, NoMemory>
    requires { IsName name.now }
    ensures { IfOk result (λ place. place ≡ place_of_name.File name.now) }
{
    match Name::new(alloc, name) {
        Ok(name) => Ok(Place::File(name)),
        Err(NameFail::NoMemory) => Err(NoMemory),
        Err(NameFail::BadName) => unreachable!(),
    }
}

/// The place that a command reads.
fn place_of(alloc: Global, words: &Words, origin: Origin) -> Result<Place, NoMemory>
    requires { IsOrigin words.now origin }
    ensures { IfOk result (λ place. place ≡ place_from words.now origin) }
{
    match origin {
        Origin::Input => Ok(Place::Input),
        Origin::Word(number) => match words.get(number) {
            Some(word) => file_of(alloc, word),
            None => unreachable!(),
        },
    }
}

/// A refusal with the name of the file that was read.
fn refused_at(alloc: Global, place: &Place, refusal: Refusal) -> Outcome
    ensures { IsRefusedAt place.now refusal result }
{
    match name_of_place(alloc, place) {
        Ok(name) => Outcome::Refused(refusal, name),
        Err(_) => Outcome::NoMemory,
    }
}

/// The outcome, by how splitting what a place holds ended.
fn outcome_of(alloc: Global, from: Place, ended: Result<(), SplitFail>) -> Outcome
    ensures { IsSplitOutcome from ended result }
{
    match ended {
        Ok(()) => Outcome::Done,
        Err(SplitFail::NoMemory) => Outcome::NoMemory,
        Err(SplitFail::NotThere) => place_not_there(alloc, &from),
        Err(SplitFail::Unread) => Outcome::Unread(from),
        Err(SplitFail::Refused(refusal)) => refused_at(alloc, &from, refusal),
        Err(SplitFail::Unasked(name)) => Outcome::Unread(Place::File(name)),
        Err(SplitFail::NoFreeName(number)) => Outcome::NoFreeName(number),
        Err(SplitFail::Unwritten(place)) => Outcome::Unwritten(place),
    }
}

/// Splits what a place holds.
fn split_from<H: Shelf>(alloc: Global, shelf: &mut H, from: Place) -> Outcome
    requires { IsSource from }
    ensures { SplitRan from (H.state shelf.old) (H.state shelf.new) result }
{
    let ended = split_place(alloc, shelf, &from);
    outcome_of(alloc, from, ended)
}

/// Splits what is read: Input, or the file that a word names.
pub(crate) fn split<H: Shelf>(
    alloc: Global,
    words: &Words,
    shelf: &mut H,
    origin: Origin,
) -> Outcome
    requires { IsOrigin words.now origin }
    ensures { SplitRan (place_from words.now origin) (H.state shelf.old) (H.state shelf.new) result }
{
    match place_of(alloc, words, origin) {
        Err(_) => Outcome::NoMemory,
        Ok(from) => split_from(alloc, shelf, from),
    }
}
