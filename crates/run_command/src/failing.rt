//! Why no run began.

ghost use Rattle.std.specs.Prelude.{◌≡◌};
ghost use Rattle.run_command.specs.Unread.{SaysUnasked, unasked_status, SaysUnread, unread_status, SaysUnloaded, unloaded_status};

use c_sources::CSourceFail;
use f2c_outside::shelves::Shelf;
use f2c_outside::texts::Words;
use outcomes::{Outcome, say_outcome};
use program_loader::LoadFail;
use run_messages::{say_link, say_not_c};
use run_words::RunWordsFail;

/// Says why C files were not read, and gives the exit status.
pub(crate) fn say_unread<H: Shelf>(shelf: &mut H, words: &Words, why: CSourceFail) -> u8
    ensures said { SaysUnread why (H.state shelf.old) (H.state shelf.new) }
    ensures status { result ≡ unread_status why }
{
    match why {
        CSourceFail::NotThere(name) => {
            say_outcome(shelf, words, &Outcome::NotThere(name));
            3
        }
        CSourceFail::Unread(place) => {
            say_outcome(shelf, words, &Outcome::Unread(place));
            3
        }
        CSourceFail::NotC(name, line) => {
            say_not_c(shelf, name.as_slice(), line);
            6
        }
        CSourceFail::NoMemory => {
            say_outcome(shelf, words, &Outcome::NoMemory);
            5
        }
    }
}

/// Says that there was no memory, and gives the exit status.
pub(crate) fn say_no_memory<H: Shelf>(shelf: &mut H, words: &Words) -> u8
    ensures said { SaysUnread CSourceFail.NoMemory (H.state shelf.old) (H.state shelf.new) }
    ensures status { result ≡ 5 }
{
    say_outcome(shelf, words, &Outcome::NoMemory);
    5
}

/// Says why the words ask for no run, and gives the exit status.
pub(crate) fn say_unasked<H: Shelf>(shelf: &mut H, words: &Words, why: RunWordsFail) -> u8
    ensures said { SaysUnasked words.now why (H.state shelf.old) (H.state shelf.new) }
    ensures status { result ≡ unasked_status why }
{
    match why {
        RunWordsFail::BadWord(number) => {
            say_outcome(shelf, words, &Outcome::BadWord(number));
            2
        }
        RunWordsFail::NoMemory => say_no_memory(shelf, words),
    }
}

/// Says why files were not loaded, and gives the exit status.
pub(crate) fn say_unloaded<H: Shelf>(shelf: &mut H, words: &Words, why: LoadFail) -> u8
    ensures said { SaysUnloaded why (H.state shelf.old) (H.state shelf.new) }
    ensures status { result ≡ unloaded_status why }
{
    match why {
        LoadFail::Link(rule) => {
            say_link(shelf, rule);
            6
        }
        LoadFail::NoMemory => say_no_memory(shelf, words),
    }
}
