//! What the words of the command line ask for.

ghost use Rattle.std.specs.Prelude.{◌≡◌, ◌≤◌, ◌<◌, ◌+◌, [], length, take};
ghost use Rattle.std.specs.List.{list_any};
ghost use Rattle.f2c_outside.specs.Texts.{word_at};
ghost use Rattle.output_names.specs.OutputNames.{have_one_output};
ghost use Rattle.command_words.specs.CommandWords as words_of;

use crate::checks::{check_by, is_check};
use crate::sources::{lacks_a_file, one_past};
use f_tree::names::Options;
use f2c_outside::texts::Words;
use output_names::{have_one_output, is_file_word, is_prototype_word};

/// Where splitting reads.
#[derive(Clone, Copy)]
pub enum Origin {
    /// Input.
    Input,
    /// The file that the word of this number, counted from 1, names.
    Word(usize),
}

/// How files are to be translated.
#[derive(Clone, Copy)]
pub struct Translation {
    /// The options of the language.
    pub options: Options,
    /// Whether the prototypes of each file are written, too.
    pub prototypes: bool,
    /// Whether they are compared with those that were written before.
    pub compared: bool,
}

/// What is to be done.
#[derive(Clone, Copy)]
pub enum Command {
    /// Read the files that the words name, or Input, to their ends, and write their translations.
    Translate(Translation),
    /// Cut what is read there into its pieces, one for each program unit, and write each to a file of its own.
    Split(Origin),
    /// Read the files that the words name to their ends, and list the calls that disagree with what they call, under these options.
    Check(Options),
    /// Write the usage on Output.
    Help,
    /// Nothing: with the word of this number, counted from 1, no command goes on.
    BadWord(usize),
}

/// Whether a word asks for the usage.
fn is_help(word: &[u8]) -> bool
    ensures { result ≡ words_of.is_help word.now }
{
    word == b"-h".as_slice() || word == b"--help".as_slice()
}

/// Whether a word asks that what is read be split.
fn is_split(word: &[u8]) -> bool
    ensures { result ≡ words_of.is_split word.now }
{
    word == b"-split".as_slice()
}

/// The option by which no name has a type by its first letter.
const NO_IMPLIED_TYPES: &[u8] = b"-u";

/// The option by which the range of a DO statement is run at least once.
const ONE_TURN: &[u8] = b"-onetrip";

/// The option by which text past column 72 is refused.
const LONG_CARDS: &[u8] = b"-72";

/// Whether a word is an option that changes nothing.
fn changes_nothing(word: &[u8]) -> bool
    ensures { result ≡ words_of.changes_nothing word.now }
{
    word == b"-A".as_slice() || word == b"-w".as_slice() || word == b"-!bs".as_slice()
}

/// The option by which prototypes are written.
const WITH_PROTOTYPES: &[u8] = b"-P";

/// The option by which they are compared with those that were written before, too.
const WITH_COMPARISON: &[u8] = b"-Ps";

/// Whether a word asks for prototypes.
pub(crate) fn is_prototype_option(word: &[u8]) -> bool
    ensures { result ≡ words_of.is_prototype_option word.now }
{
    word == WITH_PROTOTYPES || word == WITH_COMPARISON
}

/// Whether a word is an option of the language.
fn is_option(word: &[u8]) -> bool
    ensures { result ≡ words_of.is_option word.now }
{
    word == NO_IMPLIED_TYPES || word == ONE_TURN || word == LONG_CARDS || changes_nothing(word)
}

/// Whether the word with a number is this one.
fn is_word(words: &Words, number: usize, word: &[u8]) -> bool
    ensures { result ≡ words_of.is_the_word word.now (word_at number words.now) }
{
    match words.get(number) {
        Some(other) => word == other,
        None => false,
    }
}

/// Whether a word stands among the words.
#[tactic(auto, using(crate::proofs::WordLemmas::word_found, crate::proofs::WordLemmas::word_passed, crate::proofs::WordLemmas::word_nowhere))]
fn has_word(words: &Words, word: &[u8]) -> bool
    ensures { result ≡ words_of.has_word word.now words.now }
{
    let mut passed = 0;
    while passed < words.len() {
        if is_word(words, passed + 1, word) {
            return true;
        }
        passed += 1;
    }
    false
}

/// The options that the words give a translation.
fn options_of(words: &Words) -> Options
    ensures { result ≡ words_of.options_of words.now }
{
    Options {
        undeclared: has_word(words, NO_IMPLIED_TYPES),
        onetrip: has_word(words, ONE_TURN),
        long_cards: has_word(words, LONG_CARDS),
        checks: false,
    }
}

/// Whether the word with a number names a file with the output name of this one.
fn gives_its_output(words: &Words, number: usize, word: &[u8]) -> bool
    ensures { result ≡ words_of.gives_its_output word.now (word_at number words.now) }
{
    match words.get(number) {
        Some(other) => have_one_output(word, other),
        None => false,
    }
}

/// Whether one of the first words, so many, names a file with the output name of this one.
#[tactic(auto, using(crate::proofs::WordLemmas::name_found, crate::proofs::WordLemmas::name_passed, crate::proofs::WordLemmas::name_nowhere))]
fn is_taken(words: &Words, count: usize, word: &[u8]) -> bool
    requires { count ≤ length words.now }
    ensures { result ≡ list_any (have_one_output word.now) (take count words.now) }
{
    let mut passed = 0;
    while passed < count {
        if gives_its_output(words, passed + 1, word) {
            return true;
        }
        passed += 1;
    }
    false
}

/// Whether a translation goes on with the word behind the first, so many.
fn goes_on(words: &Words, passed: usize) -> bool
    requires { passed < length words.now }
    ensures { result ≡ words_of.goes_on_with (take passed words.now) (word_at (passed + 1) words.now) }
{
    let count = words.len();
    prove!(passed < count);
    match words.get(passed + 1) {
        Some(word) => {
            is_option(word)
                || is_prototype_option(word)
                || is_prototype_word(word)
                || (is_file_word(word) && !is_taken(words, passed, word))
        }
        None => false,
    }
}

/// The number of the first word with which no translation goes on.
#[tactic(auto, using(crate::proofs::WordLemmas::goes_on, crate::proofs::WordLemmas::stops, crate::proofs::WordLemmas::ends))]
fn first_other(words: &Words) -> Option<usize>
    ensures { result ≡ words_of.first_other 1 [] words.now }
{
    let mut passed = 0;
    while passed < words.len() {
        if !goes_on(words, passed) {
            return Some(passed + 1);
        }
        passed += 1;
    }
    None
}

/// The translation that the words ask for.
fn translation_of(words: &Words) -> Translation
    ensures { result ≡ words_of.translation_of words.now }
{
    let compared = has_word(words, WITH_COMPARISON);
    Translation {
        options: options_of(words),
        prototypes: has_word(words, WITH_PROTOTYPES) || compared,
        compared,
    }
}

/// A translation, unless it does not go on with a word, or a FORTRAN file is missing behind the last.
fn translation_by(words: &Words) -> Command
    ensures { result ≡ words_of.translation_by words.now (words_of.first_other 1 [] words.now) }
{
    match first_other(words) {
        Some(number) => Command::BadWord(number),
        None if lacks_a_file(words) => Command::BadWord(one_past(words)),
        None => Command::Translate(translation_of(words)),
    }
}

/// Splitting, by the words behind the first.
fn split_by(words: &Words) -> Command
    ensures { result ≡ words_of.split_by (word_at 2 words.now) words.now }
{
    match words.get(2) {
        None => Command::Split(Origin::Input),
        Some(file) if !is_file_word(file) => Command::BadWord(2),
        Some(_) if words.len() == 2 => Command::Split(Origin::Word(2)),
        Some(_) => Command::BadWord(3),
    }
}

/// The command that the words ask for: translation where they are options and files, in any order, of which one names FORTRAN where a word asks for
/// prototypes; splitting where `-split` is the first and a FORTRAN file at most stands behind it; the usage where `-h` or `--help` is the only one; and a
/// check of calls where `-check` is the first and files stand behind it, one at least. No other command has a word yet.
pub fn command_of_words(words: &Words) -> Command
    ensures { result ≡ words_of.command_of words.now }
{
    match words.get(1) {
        Some(first) if is_split(first) => split_by(words),
        Some(first) if is_help(first) && words.len() == 1 => Command::Help,
        Some(first) if is_help(first) => Command::BadWord(2),
        Some(first) if is_check(first) => check_by(words),
        _ => translation_by(words),
    }
}
