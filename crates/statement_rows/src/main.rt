//! Reads statements from standard input, one a line, and prints what each is, with the name that tells it from others that look like it. Sections
//! 3.1 and 3.3 of the standard, ANSI X3.9-1978: keywords are not reserved, and blanks mean nothing.
#![tactic(auto)]

mod forms;

use f_tree::{Fail, Stmt};
use forms::form_of;
use fortran_text::Statement;
use plain_data::Items;
use statement_reader::read_statement;
use std::alloc::{AllocError, Global};
use std::io::{self, BufRead, BufReader};
use std::process::ExitCode;

/// Why the program ends early.
#[derive(Clone, Copy, Debug, PartialEq, Eq)]
pub enum Stop {
    /// There is not enough memory.
    NoMemory,
    /// Standard input cannot be read, or standard output cannot be written.
    Failed,
}

impl From<AllocError> for Stop {
    fn from(_error: AllocError) -> Stop {
        Stop::NoMemory
    }
}

impl From<io::Error> for Stop {
    fn from(_error: io::Error) -> Stop {
        Stop::Failed
    }
}

/// The tree of a statement that is not the first of its unit, on the first card of a file.
fn tree(alloc: Global, text: &str) -> Result<Result<Stmt, Fail>, AllocError> {
    let statement = Statement {
        label: None,
        text: Items::from_slice(alloc, text.as_bytes())?,
        file: 0,
        card: 1,
    };
    Ok(read_statement(alloc, false, &statement))
}

/// Prints what a statement is.
fn print_form(rt: &HostRuntime, text: &str) -> Result<(), Stop> {
    match tree(rt.alloc(), text)? {
        Ok(stmt) => rt.println(format_args!("{text}: {}", form_of(&stmt.body)))?,
        Err(_) => rt.println(format_args!("{text}: none"))?,
    }
    Ok(())
}

/// Prints what each statement of standard input is.
fn print_forms(rt: &HostRuntime, alloc: Global) -> Result<(), Stop> {
    for line in BufReader::new(alloc, rt.reader())?.lines(alloc) {
        print_form(rt, &line?)?;
    }
    Ok(())
}

/// Prints what each statement of standard input is.
fn main(rt: HostRuntime) -> ExitCode {
    match print_forms(&rt, rt.alloc()) {
        Ok(()) => ExitCode::from(0),
        Err(_) => ExitCode::from(1),
    }
}
