//! Runs commands on a shelf in memory, and prints what each gives. A case begins with one of three lines and has the cards of Input behind it. Of
//! `== title` the source of Input is translated (with the word `-72`, where the title ends with it), and the line on Fault is printed, or that it is
//! accepted. Of `=* title` each changed source is judged too: each front of Input, Input without one of its lines and with one of them twice, and with
//! each byte changed to five others. Of `=$ WORDS` the command of these words is run; its status, the line on Fault and each file that Output names are
//! printed. A line `-- NAME` begins a file that is there, `++ PREFIX` puts there all files with that prefix and a number, and `!! N` lets the call of
//! the shelf with that number fail. A line `## U` connects unit U to a device in memory, and `## U K` to one whose call K fails; where a name stands in the
//! place of U, the device is offered to OPEN under that name. A line `#> RECORD` behind it gives its file a record; behind the command the records of the
//! first unit are printed.
#![tactic(auto)]

mod cases;
mod changes;
mod runs;
mod shelves;
mod units;

use cases::Case;
use changes::judge_changes;
use runs::Run;
use std::alloc::{AllocError, Global};
use std::io::{self, BufRead, BufReader};
use std::process::ExitCode;

/// Why the program ends early.
#[derive(Clone, Copy, Debug, PartialEq, Eq)]
pub enum Stop {
    /// There is not enough memory.
    NoMemory,
    /// Standard input cannot be read, standard output cannot be written, or a name or a number is none.
    Failed,
}

impl From<AllocError> for Stop {
    fn from(_error: AllocError) -> Stop {
        Stop::NoMemory
    }
}

impl From<io::Error> for Stop {
    fn from(_error: io::Error) -> Stop {
        Stop::Failed
    }
}

/// Prints a text, each line behind a bar.
fn print_text(rt: &HostRuntime, text: &str) -> Result<(), Stop> {
    for line in text.lines() {
        rt.println(format_args!("  | {line}"))?;
    }
    Ok(())
}

/// Prints how a command ends.
fn print_command(rt: &HostRuntime, case: &Case, words: &str) -> Result<(), Stop> {
    let run = Run::of(rt.alloc(), case, words)?;
    rt.println(format_args!("{}", case.title()))?;
    rt.println(format_args!("status {}", run.status()))?;
    print_text(rt, run.fault())?;
    for record in run.records() {
        rt.println(format_args!("  > {record}"))?;
    }
    for name in run.listing().lines() {
        rt.println(format_args!("-- {name}"))?;
        print_text(rt, run.text(rt.alloc(), name)?)?;
    }
    Ok(())
}

/// Prints what a source gives.
fn print_source(rt: &HostRuntime, case: &Case) -> Result<(), Stop> {
    let run = Run::of(rt.alloc(), case, case.option())?;
    rt.println(format_args!("{}: {}", case.title(), run.verdict()))?;
    if case.is_changed() {
        let counts = judge_changes(rt.alloc(), case.input())?;
        rt.println(format_args!("    {counts}"))?;
    }
    Ok(())
}

/// Prints what a case gives.
fn print_case(rt: &HostRuntime, case: &Case) -> Result<(), Stop> {
    match case.command() {
        Some(words) => print_command(rt, case, words),
        None => print_source(rt, case),
    }
}

/// Reads the cases, and prints what each gives.
fn print_cases(rt: &HostRuntime, alloc: Global) -> Result<(), Stop> {
    let mut case = Case::new(alloc);
    for line in BufReader::new(alloc, rt.reader())?.lines(alloc) {
        let line = line?;
        if Case::begins(&line) {
            if case.has_title() {
                print_case(rt, &case)?;
            }
            case = Case::new(alloc);
        }
        case.add(alloc, line)?;
    }
    print_case(rt, &case)
}

/// Runs the commands of standard input.
fn main(rt: HostRuntime) -> ExitCode {
    match print_cases(&rt, rt.alloc()) {
        Ok(()) => ExitCode::from(0),
        Err(_) => ExitCode::from(1),
    }
}
