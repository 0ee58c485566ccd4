//! Reads a FORTRAN source from standard input, and prints of each of its program units what its names are, and which row of declarations it breaks
//! first. The comment before a unit is its title; where that ends with the word `-u`, no name has a type by its first letter.
#![tactic(auto)]

mod names;
mod source;
mod units;

use cards::read_cards;
use f_tree::{Fail, File, Options};
use file_parse::parse_file;
use source::Source;
use std::alloc::{AllocError, Global};
use std::io::{self, BufRead, BufReader};
use std::process::ExitCode;
use units::print_unit;

/// Why the program ends early.
#[derive(Clone, Copy, Debug, PartialEq, Eq)]
pub enum Stop {
    /// There is not enough memory.
    NoMemory,
    /// Standard input cannot be read, or standard output cannot be written.
    Failed,
    /// The cards or the statements of the source are refused.
    Refused(Fail),
}

impl From<AllocError> for Stop {
    fn from(_error: AllocError) -> Stop {
        Stop::NoMemory
    }
}

impl From<io::Error> for Stop {
    fn from(_error: io::Error) -> Stop {
        Stop::Failed
    }
}

impl From<Fail> for Stop {
    fn from(fail: Fail) -> Stop {
        Stop::Refused(fail)
    }
}

/// The options that the cards are read with.
const OPTIONS: Options = Options {
    undeclared: false,
    onetrip: false,
    long_cards: false,
    checks: false,
};

/// The lines of standard input.
fn read_source(rt: &HostRuntime, alloc: Global) -> Result<Source, Stop> {
    let mut source = Source::new(alloc);
    for line in BufReader::new(alloc, rt.reader())?.lines(alloc) {
        source.add(line?)?;
    }
    Ok(source)
}

/// The tree of a source.
fn tree(alloc: Global, source: &Source) -> Result<File, Fail> {
    let cards = read_cards(alloc, source.bytes(), 0, &OPTIONS)?;
    parse_file(alloc, &cards)
}

/// Prints what each unit of standard input is.
fn print_units(rt: &HostRuntime, alloc: Global) -> Result<(), Stop> {
    let source = read_source(rt, alloc)?;
    let file = tree(alloc, &source)?;
    for unit in file.units.as_slice() {
        print_unit(rt, &source, unit)?;
    }
    Ok(())
}

/// Prints what each unit of standard input is, and on standard error why it ends early.
fn main(rt: HostRuntime) -> ExitCode {
    match print_units(&rt, rt.alloc()) {
        Ok(()) => ExitCode::from(0),
        Err(stop) => {
            let _ = rt.eprintln(format_args!("{stop:?}"));
            ExitCode::from(1)
        }
    }
}
