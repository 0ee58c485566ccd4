//! The top call: what the words ask for is done on a shelf, and a message and a status tell how it ended.

ghost use Rattle.std.specs.Prelude.{◌≡◌, true, false};
ghost use Rattle.command_words.specs.CommandWords.{command_of};
ghost use Rattle.f2c_outside.specs.Rows.{rows_of};
ghost use Rattle.run_command.specs.RunRows.{RunEnded};
ghost use Rattle.f2c_program.specs.TopCall.{Ran, Concluded, Commanded, asks_for_run};

use crate::checking::check_named;
use crate::splitting::split;
use crate::translating::translate_named;
use crate::usage::write_usage;
use checked_sources::laws::checked_sources_run;
use command_words::{Command, command_of_words};
use f2c_outside::devices::Device;
use f2c_outside::shelves::Shelf;
use f2c_outside::texts::Words;
use f2c_outside::unit_table::UnitTable;
use outcomes::{Outcome, say_outcome};
use run_command::{RunDone, run_c_files};
use run_words::is_run;
use std::alloc::Global;

/// How a call of `f2c` ended.
#[derive(Drop)]
pub struct Ended {
    /// The exit status.
    pub status: u8,
    /// The units that were handed in, as a run left them.
    pub units: UnitTable,
}

/// Does what the words ask for.
fn carry_out<H: Shelf>(alloc: Global, words: &Words, shelf: &mut H) -> Outcome
    ensures { Ran words.now (command_of words.now) (H.state shelf.old) (H.state shelf.new) result }
{
    match command_of_words(words) {
        Command::Translate(asked) => translate_named(alloc, words, &asked, shelf),
        Command::Split(origin) => split(alloc, words, shelf, origin),
        Command::Check(options) => check_named(alloc, words, &options, shelf),
        Command::Help => write_usage(shelf),
        Command::BadWord(number) => Outcome::BadWord(number),
    }
}

/// Does what the words ask for that ask for no run, says how it ended, and gives the exit status.
fn command_status<H: Shelf>(alloc: Global, words: &Words, shelf: &mut H) -> u8
    ensures concluded { Concluded words.now (H.state shelf.old) (H.state shelf.new) result }
    ensures commanded { Commanded words.now (command_of words.now) (H.state shelf.old) (H.state shelf.new) result }
{
    checked_sources_run();
    let outcome = carry_out(alloc, words, shelf);
    say_outcome(shelf, words, &outcome);
    outcome.status()
}

/// Whether the words ask for a run of C files, that is whether the first is `-run`.
pub(crate) fn asks_for_run(words: &Words) -> bool
    ensures { result ≡ asks_for_run words.now }
{
    match words.get(1) {
        Some(word) => is_run(word),
        None => false,
    }
}

/// Does what the words of a command line ask for, on a shelf and the units that are handed in.
///
/// Words that end in `.f` name files: it reads each of them to its end, in their order, and each file that an INCLUDE statement there names, judges
/// them as one set, and, only where all are accepted, writes for each its translation: the C file with its name, `.c` in place of `.f`, in the
/// current folder. With `-P` and `-Ps` the prototypes of its functions go behind it to the file with `.P`, and with `-Ps` these are compared with those
/// that stood there before. Words that end in `.P` name prototype files, which are read and checked for their form. Where no word names a FORTRAN file, it
/// translates Input on Output, and no word asks for prototypes. Other words are the options of CSTR 149 that `--help` lists. With
/// `-split` it writes each program unit of Input, or of the file that the next word names, to a new file of its own, and their names on Output; with
/// `-check`, behind which stand FORTRAN files and prototype files, it reads them and lists each call that disagrees with what it calls on
/// Output; with the one word `-h` or `--help` it writes the usage there.
///
/// With `-run`, behind which stand C files, it reads them, links them and runs their program over the units that are handed in: `RunEnded` tells how that ends, with the
/// statuses of `run_command`. All other commands hand the units back as they were.
///
/// Of the other commands the status is 0 where that was done, and then no call of the shelf failed; 1
/// exactly where the set has a first refusal, which is that it is too long where it is split, and the line on Fault names it and its file, or where a
/// prototype file is none; 2 exactly where the words are others, or two files that are translated have one output name, and the line names the first
/// with which no command goes on, or the one that is missing behind the last; 3 only where a file that is read is not there, and the line names it, or the
/// shelf failed, and the line names the
/// place that was being read or written; 4 exactly where all was written, and a prototype file that was compared was missing, malformed, or had other
/// prototypes, and then no call of the shelf failed; 5 where memory ran out; 11 where all was read and a call, one at least, is listed; 13 exactly where no number
/// is free for the name of a piece, and the line says for which. With 0 of `-check` no run of the files calls a procedure of theirs, by a name that is no
/// dummy procedure, as another kind of procedure, with another type of result, or with arguments of another number, kind or type. After 1, 2, 5 and 13
/// nothing but the line on Fault was put anywhere; where writing a translation failed, the outputs before are whole, the one that failed is unchanged or
/// holds a front of its text, and later ones are unchanged.
pub fn f2c<H: Shelf>(alloc: Global, words: &Words, shelf: &mut H, units: UnitTable) -> Ended
    ensures concluded { asks_for_run words.now ≡ false → Concluded words.now (H.state shelf.old) (H.state shelf.new) result.status }
    ensures commanded { asks_for_run words.now ≡ false → Commanded words.now (command_of words.now) (H.state shelf.old) (H.state shelf.new) result.status }
    ensures units { asks_for_run words.now ≡ false → result.units ≡ units }
    ensures ran { asks_for_run words.now ≡ true → RunEnded words.now (rows_of (λ b. (⟦<dyn Device as Device>⟧ b.vtable).device_state b.value) units) (rows_of (λ b. (⟦<dyn Device as Device>⟧ b.vtable).device_state b.value) result.units) (H.state shelf.old) (H.state shelf.new) result.status }
{
    if asks_for_run(words) {
        let RunDone { status, units } = run_c_files(alloc, words, shelf, units);
        return Ended { status, units };
    }
    Ended {
        status: command_status(alloc, words, shelf),
        units,
    }
}
