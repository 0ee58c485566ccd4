//! The words of a check of calls.

ghost use Rattle.std.specs.Prelude.{◌≡◌, drop};
ghost use Rattle.f2c_outside.specs.Texts.{word_at};
ghost use Rattle.command_words.specs.CommandWords as words_of;

use crate::command::Command;
use f_tree::names::Options;
use f2c_outside::texts::Words;
use output_names::{is_file_word, is_prototype_word};

/// Whether a word asks that calls be checked.
pub(crate) fn is_check(word: &[u8]) -> bool
    ensures { result ≡ words_of.is_check word.now }
{
    word == b"-check".as_slice()
}

/// Whether a word names a file of a check.
fn names_a_file(word: &[u8]) -> bool
    ensures { result ≡ words_of.names_a_file word.now }
{
    is_file_word(word) || is_prototype_word(word)
}

/// Whether there is a word with this number that names a file of a check.
fn is_file(words: &Words, number: usize) -> bool
    ensures { result ≡ words_of.is_some_file (word_at number words.now) }
{
    match words.get(number) {
        Some(word) => names_a_file(word),
        None => false,
    }
}

/// The number of the first word behind the first with which no check goes on.
#[tactic(auto, using(crate::proofs::CheckLemmas::goes_on, crate::proofs::CheckLemmas::stops, crate::proofs::CheckLemmas::ends))]
fn first_unchecked(words: &Words) -> Option<usize>
    ensures { result ≡ words_of.first_unchecked 2 (drop 1 words.now) }
{
    let mut passed = 1;
    while passed < words.len() {
        if !is_file(words, passed + 1) {
            return Some(passed + 1);
        }
        passed += 1;
    }
    None
}

/// The options of a check.
fn no_options() -> Options
    ensures { result ≡ words_of.no_options }
{
    Options {
        undeclared: false,
        onetrip: false,
        long_cards: false,
        checks: false,
    }
}

/// A check, unless it does not go on with a word behind the first, or a file is missing there.
pub(crate) fn check_by(words: &Words) -> Command
    ensures { result ≡ words_of.check_by words.now (words_of.first_unchecked 2 (drop 1 words.now)) }
{
    match first_unchecked(words) {
        Some(number) => Command::BadWord(number),
        None if 1 < words.len() => Command::Check(no_options()),
        None => Command::BadWord(2),
    }
}
