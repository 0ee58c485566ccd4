//! The usage of the program.

ghost use Rattle.std.specs.Prelude.{◌≡◌, ℕ, List, true};
ghost use Rattle.f2c_program.specs.TopCall.{WroteUsage};
ghost use Rattle.f2c_program.specs.Usage.{is_option_word, IsNamed};

use f2c_outside::shelves::{Place, Shelf};
use outcomes::Outcome;
use shelf_texts::write_pieces;

/// Writes the usage on Output.
pub(crate) fn write_usage<H: Shelf>(shelf: &mut H) -> Outcome
    ensures { WroteUsage (H.state shelf.old) (H.state shelf.new) result }
{
    let pieces: [&[u8]; 13] = [
        b"usage: f2c [OPTION | FILE.f | FILE.P] ..\n       f2c -split [FILE.f]\n       f2c -check FILE.f | FILE.P ..\n       f2c -run FILE.c | -file NAME | -steps N ..\n",
        b"Translates FORTRAN 77 files, as one program, to C: each FILE.f to FILE.c in the current folder.\nWithout a FILE.f it translates standard input to standard output.\n",
        b"\n",
        b"  -u          refuses names without a type statement\n  -onetrip    runs the range of each DO statement at least once\n  -72         refuses text past column 72\n",
        b"  -P          writes the prototypes of the functions of each FILE.f to FILE.P in the current folder, too\n  -Ps         likewise, and compares them with those that were there\n  -A -w -!bs  change nothing\n",
        b"  -split      writes each program unit of FILE.f, or of standard input, to a new file of its own,\n              and the names of these files on standard output\n",
        b"  -check      lists each call of the FILE.f that disagrees with what it calls, among them or else in a FILE.P,\n              on standard output; a FILE.P is a file of prototypes\n",
        b"  -run        runs the program of the FILE.c with standard input as unit 5 and standard output as unit 6\n  -file NAME  lets OPEN of the run take the file NAME; each file has a -file of its own\n  -steps N    ends the run after N steps at most, 1000000000 without it\n",
        b"  -h, --help  puts this on standard output, and reads nothing\n",
        b"\n",
        b"Status 0: it is done. 1: the source is refused, and a line says in which file, at which card and why,\nor a FILE.P is none, and a line says where; nothing is written.\n",
        b"2: a line names a word that is none of those above, not beside the others, or missing, or a FILE.f whose output another has.\n3: a file is not there, or a file or stream failed. 4: all is done, and a FILE.P is not as it was.\n5: out of memory.\n",
        b"6: a FILE.c is not in the subset of C that is written here, or the files lack a function or a main program,\nor have a main program with parameters, or a function or the image of an object twice, or more than 268435456 bytes of objects.\n7: the run has a fault. 8: it is not over after its steps. 9: the device of a unit failed.\n10: an error of input or output ends it. 11: a call disagrees. 12: a place is out of bounds.\n13: no name is free for a program unit, and a line says for which. 15: a run reads more records than it can count.\n",
    ];
    match write_pieces(shelf, &Place::Output, &pieces) {
        Err(_) => Outcome::Unwritten(Place::Output),
        Ok(()) => Outcome::Done,
    }
}

/// Each word by which a command or a run tells what is to be done stands in the usage.
#[tactic(auto, using(crate::proofs::UsageLemmas::options_named))]
pub fn usage_names_each_option()
    ensures { (word : List ℕ) → is_option_word word ≡ true → IsNamed word }
{}
