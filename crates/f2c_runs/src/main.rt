//! Runs the program with the words of the command line, of which one is not UTF-8; tells the words of environments of its own; and then carries out the
//! commands of the file `commands`, one a line, on the real files of the folder: of each it tells what it puts on Output, and its status. A line
//! `f2c WORD ..` is a command with these words, a line `show FILE` puts a file on standard output.
#![tactic(auto)]

use f2c_outside::texts::{NoMemory, Words};
use f2c_program::{NoWords, call_on_host, command_words, run};
use std::alloc::Global;
use std::env::FillError;
use std::process::ExitCode;
use std::rt::Env;
use std::{fs, io};

/// Why the program ends early.
#[derive(Clone, Copy, Debug, PartialEq, Eq)]
pub enum Stop {
    /// There is not enough memory.
    NoMemory,
    /// A file cannot be read, or standard output cannot be written.
    Failed,
}

impl From<NoMemory> for Stop {
    fn from(_error: NoMemory) -> Stop {
        Stop::NoMemory
    }
}

impl From<io::Error> for Stop {
    fn from(_error: io::Error) -> Stop {
        Stop::Failed
    }
}

/// The words of a command behind its first, which stand apart by one blank each.
fn words_of(alloc: Global, command: &str) -> Result<Words, NoMemory> {
    let mut words = Words::new(alloc)?;
    for word in command.split(' ').skip(1) {
        words.push(word.as_bytes())?;
    }
    Ok(words)
}

/// Runs a command, and tells its status.
fn run_command(rt: &HostRuntime, alloc: Global, command: &str) -> Result<(), Stop> {
    let words = words_of(alloc, command)?;
    let status = call_on_host(rt, &words)?;
    Ok(rt.println(format_args!("status {status}"))?)
}

/// Puts a file on standard output.
fn show(rt: &HostRuntime, path: &str) -> Result<(), Stop> {
    let text = fs::read_to_string(rt, path)?;
    Ok(rt.print(format_args!("{text}"))?)
}

/// Does what a line asks for.
fn do_line(rt: &HostRuntime, alloc: Global, line: &str) -> Result<(), Stop> {
    rt.println(format_args!("$ {line}"))?;
    match line.strip_prefix("show ") {
        Some(path) => show(rt, path),
        None => run_command(rt, alloc, line),
    }
}

/// Does what the lines of the file `commands` ask for, in their order.
fn do_lines(rt: &HostRuntime, alloc: Global) -> Result<(), Stop> {
    let commands = fs::read_to_string(rt, "commands")?;
    for line in commands.lines() {
        do_line(rt, alloc, line)?;
    }
    Ok(())
}

/// The arguments of an environment: the first is the name of a program.
const ARGUMENTS: &[u8] = b"fabcdefg";

/// An environment of the first of these arguments, so many, of which one may be no text.
#[derive(Drop)]
struct Environment {
    count: usize,
    spoilt: Option<usize>,
}

impl Env for Environment {
    fn arg(&self, i: usize, buf: &mut [u8]) -> Result<usize, FillError> {
        match ARGUMENTS.get(i) {
            Some(_) if buf.is_empty() => Err(FillError::TooLong),
            Some(argument) if i < self.count => {
                buf[0] = if self.spoilt == Some(i) {
                    0xff
                } else {
                    *argument
                };
                Ok(1)
            }
            _ => Err(FillError::NotPresent),
        }
    }

    fn var(&self, _name: &str, _buf: &mut [u8]) -> Result<usize, FillError> {
        Err(FillError::NotPresent)
    }

    fn var_at(&self, _i: usize, _buf: &mut [u8]) -> Result<usize, FillError> {
        Err(FillError::NotPresent)
    }
}

/// Tells words.
fn tell(rt: &HostRuntime, words: &Words) -> Result<(), Stop> {
    rt.print(format_args!("{} words:", words.len()))?;
    for number in 1..=words.len() {
        let word = words.get(number).unwrap_or(b"");
        rt.print(format_args!(" {}", str::from_utf8(word).unwrap_or("?")))?;
    }
    Ok(rt.println("")?)
}

/// Tells the words of an environment, or that one is no text.
fn tell_words(rt: &HostRuntime, alloc: Global, environment: Environment) -> Result<(), Stop> {
    match command_words(&(environment, alloc)) {
        Ok(words) => tell(rt, &words),
        Err(NoWords::NotText) => Ok(rt.println("no text")?),
        Err(NoWords::NoMemory) => Err(Stop::NoMemory),
    }
}

/// Tells the words of an environment without an argument, of others with 0, 1, 3 and 7 words behind the first, and of one with a word that is no text.
fn tell_environments(rt: &HostRuntime, alloc: Global) -> Result<(), Stop> {
    for count in [0, 1, 2, 4, 8] {
        tell_words(
            rt,
            alloc,
            Environment {
                count,
                spoilt: None,
            },
        )?;
    }
    tell_words(
        rt,
        alloc,
        Environment {
            count: 4,
            spoilt: Some(2),
        },
    )
}

/// Tells the words of the environments, and then does what the lines of the file ask for.
fn do_all(rt: &HostRuntime, alloc: Global) -> Result<(), Stop> {
    tell_environments(rt, alloc)?;
    do_lines(rt, alloc)
}

/// Runs the program with the words of the command line, tells the words of the environments, and then runs the commands of the file `commands`.
fn main(rt: HostRuntime) -> ExitCode {
    let status = run(&rt);
    match do_all(&rt, rt.alloc()) {
        Ok(()) => status,
        Err(_) => ExitCode::from(70),
    }
}
