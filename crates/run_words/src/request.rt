//! What the words of a run ask for, all together.

ghost use Rattle.std.specs.Prelude.{◌≡◌, ◌++◌, ◌∷◌, [], IsTrue, IfOk};
ghost use Rattle.f2c_outside.specs.Texts.{IsName};
ghost use Rattle.run_words.specs.RunWords as words_of;
ghost use Rattle.run_words.specs.Reading.{IsReadTo, AnswersRun};

use crate::counts::step_limit;
use crate::kinds::{
    Expected, expected_behind, is_c_word, is_file_option, is_limit_option, is_name, is_run,
};
use f2c_outside::texts::{Name, NameFail, NoMemory, Words};
use plain_data::Items;
use std::alloc::Global;

/// What the words of a run ask for.
#[derive(Drop)]
pub struct RunRequest {
    /// What a further word is to be.
    pub(crate) expected: Expected,
    /// Whether a word gives the greatest number of steps.
    pub(crate) is_limited: bool,
    /// The greatest number of steps.
    pub steps: u64,
    /// The files that the program may open, in order.
    pub drawer: Items<Name>,
    /// The C files, in order.
    pub files: Items<Name>,
}

/// Why the words ask for no run.
#[derive(Clone, Copy, Debug, PartialEq, Eq)]
pub enum RunWordsFail {
    /// With the word of this number, counted from 1, no run goes on; past the last word, one is missing.
    BadWord(usize),
    /// Memory was wanted and refused.
    NoMemory,
}

/// What words ask for, up to the first with which no run goes on.
#[derive(Drop)]
pub(crate) struct RunReading {
    request: RunRequest,
    /// The number of that word.
    other: Option<usize>,
}

/// The greatest number of steps where no word gives it.
const MOST_STEPS: u64 = 1_000_000_000;

/// What no words ask for.
fn nothing_asked(alloc: Global) -> RunRequest
    ensures { result ≡ words_of.nothing_asked }
{
    RunRequest {
        expected: Expected::Any,
        is_limited: false,
        steps: MOST_STEPS,
        drawer: Items::new(alloc),
        files: Items::new(alloc),
    }
}

/// A name of these bytes.
fn name_of(alloc: Global, bytes: &[u8]) -> Result<Name, NoMemory>
    requires { IsName bytes.now }
    ensures { IfOk result (λ name. name ≡ bytes.now) }
{
    match Name::new(alloc, bytes) {
        Ok(name) => Ok(name),
        Err(NameFail::NoMemory) => Err(NoMemory),
        Err(NameFail::BadName) => unreachable!(),
    }
}

/// Whether a word is a C file or an option, of which a limit stands but once.
fn follows(word: &[u8], is_limited: bool) -> bool
    ensures { result ≡ words_of.follows word.now is_limited }
{
    let file = is_c_word(word);
    let name_option = is_file_option(word);
    let limit_option = is_limit_option(word);
    file || name_option || (limit_option && !is_limited)
}

/// Whether a run goes on with a word.
#[tactic(auto, unfolding(crate::specs::RunWords::goes_on))]
fn goes_on(request: &RunRequest, word: &[u8]) -> bool
    ensures { result ≡ words_of.goes_on request.now word.now }
{
    match request.expected {
        Expected::Any => follows(word, request.is_limited),
        Expected::FileName => is_name(word),
        Expected::StepLimit => step_limit(word).is_some(),
    }
}

/// C files, and the one that a word names, if it names one.
fn with_c_word(alloc: Global, files: Items<Name>, word: &[u8]) -> Result<Items<Name>, NoMemory>
    ensures { IfOk result (λ more. more ≡ words_of.with_c_word word.now files) }
{
    let mut files = files;
    if is_c_word(word) {
        files.push(name_of(alloc, word)?)?;
    }
    Ok(files)
}

/// Files that the program may open, and one more.
fn with_name(alloc: Global, names: Items<Name>, word: &[u8]) -> Result<Items<Name>, NoMemory>
    requires { IsTrue (words_of.is_name word.now) }
    ensures { IfOk result (λ more. more ≡ names ++ word.now ∷ []) }
{
    let mut names = names;
    names.push(name_of(alloc, word)?)?;
    Ok(names)
}

/// What is asked for with a word more, with which a run goes on.
#[tactic(auto, unfolding(crate::specs::RunWords::goes_on, crate::specs::RunWords::with_word))]
fn with_word(alloc: Global, request: RunRequest, word: &[u8]) -> Result<RunRequest, NoMemory>
    requires { IsTrue (words_of.goes_on request word.now) }
    ensures { IfOk result (λ more. more ≡ words_of.with_word request word.now) }
{
    let mut request = request;
    match request.expected {
        Expected::Any => {
            request.files = with_c_word(alloc, request.files, word)?;
            request.expected = expected_behind(word);
            request.is_limited = request.is_limited || is_limit_option(word);
        }
        Expected::FileName => {
            request.drawer = with_name(alloc, request.drawer, word)?;
            request.expected = Expected::Any;
        }
        Expected::StepLimit => {
            request.steps = step_limit(word).unwrap_or(request.steps);
            request.expected = Expected::Any;
        }
    }
    Ok(request)
}

/// Reads the words behind the first, up to one with which no run goes on.
fn read_words(alloc: Global, words: &Words) -> Result<RunReading, NoMemory>
    ensures { IfOk result (IsReadTo words.now) }
{
    let mut request = nothing_asked(alloc);
    let mut passed = 1;
    while passed < words.len() {
        let Some(word) = words.get(passed + 1) else {
            unreachable!();
        };
        if !goes_on(&request, word) {
            let other = Some(passed + 1);
            return Ok(RunReading { request, other });
        }
        request = with_word(alloc, request, word)?;
        passed += 1;
    }
    Ok(RunReading {
        request,
        other: None,
    })
}

/// Whether nothing is missing: a C file is there, and what the last option asks for.
fn is_whole(request: &RunRequest) -> bool
    ensures { result ≡ words_of.is_whole request.now }
{
    match request.expected {
        Expected::Any => !request.files.is_empty(),
        Expected::FileName | Expected::StepLimit => false,
    }
}

/// The number behind that of the last word, as far as words are counted.
fn one_past(words: &Words) -> usize
    ensures { result ≡ words_of.one_past words.now }
{
    let count = words.len();
    if count < usize::MAX { count + 1 } else { count }
}

/// What the words of a run ask for, of which the first is `-run`: behind it stand C files, one at least, `-file NAME` as often as one likes, and
/// `-steps N` at most once, in any order.
///
/// # Errors
/// The number of the first word with which no run goes on, past the last word where one is missing; or no memory.
pub fn run_of_words(alloc: Global, words: &Words) -> Result<RunRequest, RunWordsFail>
    ensures { AnswersRun words.now result }
{
    let Ok(reading) = read_words(alloc, words) else {
        return Err(RunWordsFail::NoMemory);
    };
    match reading.other {
        Some(number) => Err(RunWordsFail::BadWord(number)),
        None if is_whole(&reading.request) => Ok(reading.request),
        None => Err(RunWordsFail::BadWord(one_past(words))),
    }
}

/// The files that the program of a run may open, in order, named up to the first word with which no run goes on; none where the first word does not ask
/// for a run.
pub fn drawer_names(alloc: Global, words: &Words) -> Result<Items<Name>, NoMemory>
    ensures { IfOk result (λ names. names ≡ words_of.drawer_of words.now) }
{
    match words.get(1) {
        Some(first) if is_run(first) => {
            let reading = read_words(alloc, words)?;
            Ok(reading.request.drawer)
        }
        _ => Ok(Items::new(alloc)),
    }
}
