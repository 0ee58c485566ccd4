//! The program around the top call: the words of the command line, and the exit status.

ghost use Rattle.std.specs.Prelude.{◌≡◌, ◌++◌, drop, map, IfOk, OnOk};
ghost use Rattle.std.specs.Process.{exit_status};
ghost use Rattle.std.specs.String.{string_bytes};
ghost use Rattle.std.specs.Vec.Iter.{into_iter_items};
ghost use Rattle.f2c_program.specs.declared.program.NoWords.TheVariants as no_words;
ghost use Rattle.f2c_program.specs.Program.{IsStatusFor, IsStatusOfProgram, IsWordsOf};

use crate::host::call_on_host;
use f2c_outside::texts::{NoMemory, Words};
use std::alloc::{AllocError, AllocGlobal, Global};
use std::env::Args;
use std::io::ErrorKind;
use std::process::ExitCode;
use std::rt::{Env, HostRuntime};
use std::{env, io};

/// The status of a command line that is not in the grammar.
const BAD_WORDS: u8 = 2;

/// The status where memory ran out before the top call began.
const NO_MEMORY: u8 = 5;

/// Why there are no words.
#[derive(Clone, Copy, Debug, PartialEq, Eq)]
pub enum NoWords {
    /// Memory ran out.
    NoMemory,
    /// A word is not UTF-8.
    NotText,
}

impl From<NoMemory> for NoWords {
    ghost from_gives = { λ _ reason. reason ≡ no_words.NoMemory };

    fn from(_error: NoMemory) -> NoWords {
        NoWords::NoMemory
    }
}

/// Puts these words behind the others.
fn put_words(words: &mut Words, texts: &[String]) -> Result<(), NoMemory>
    ensures { OnOk result (words.new ≡ words.old ++ map string_bytes texts.now) }
{
    for text in texts {
        words.push(text.as_bytes())?;
    }
    Ok(())
}

/// The words behind the program's own name, which is the first of the arguments.
fn words_of(alloc: Global, arguments: &[String]) -> Result<Words, NoMemory>
    ensures { IfOk result (λ words. words ≡ map string_bytes (drop 1 arguments.now)) }
{
    let mut words = Words::new(alloc)?;
    if let Some((_, texts)) = arguments.split_first() {
        put_words(&mut words, texts)?;
    }
    Ok(words)
}

/// The texts that the environment gave.
fn texts_of(alloc: Global, arguments: Args) -> Result<Vec<String>, AllocError>
    ensures { IfOk result (λ texts. texts.items ≡ into_iter_items arguments) }
{
    arguments.collect(alloc)
}

/// The words behind the program's own name, out of what the environment gave.
fn words_from(alloc: Global, given: io::Result<Args>) -> Result<Words, NoWords>
    ensures { IsWordsOf given result }
{
    let arguments = match given {
        Ok(arguments) => arguments,
        Err(error) if error.kind() == ErrorKind::InvalidData => return Err(NoWords::NotText),
        Err(_) => return Err(NoWords::NoMemory),
    };
    match texts_of(alloc, arguments) {
        Ok(texts) => Ok(words_of(alloc, &texts)?),
        Err(_) => Err(NoWords::NoMemory),
    }
}

/// The words of the command line, without the program's name.
pub fn command_words<R: Env + AllocGlobal>(rt: &R) -> Result<Words, NoWords> {
    words_from(rt.alloc(), env::args(rt))
}

/// Says that memory ran out.
fn no_memory(rt: &HostRuntime) -> u8
    ensures { result ≡ 5 }
{
    let _ = rt.eprintln("f2c: out of memory");
    NO_MEMORY
}

/// The status for the words of the command line, or for why there are none.
fn status_for(rt: &HostRuntime, words: Result<Words, NoWords>) -> u8
    ensures { IsStatusFor words result }
{
    match words {
        Ok(words) => match call_on_host(rt, &words) {
            Ok(status) => status,
            Err(_) => no_memory(rt),
        },
        Err(NoWords::NoMemory) => no_memory(rt),
        Err(NoWords::NotText) => {
            let _ = rt.eprintln("f2c: a word is not UTF-8");
            BAD_WORDS
        }
    }
}

/// Runs the program, and gives its exit status: that of the top call on the words of the command line; 2 where a word is not
/// UTF-8; 5 where memory ran out before the top call.
pub fn run(rt: &HostRuntime) -> ExitCode
    ensures { IsStatusOfProgram (exit_status result) }
{
    let words = command_words(rt);
    ExitCode::from(status_for(rt, words))
}
