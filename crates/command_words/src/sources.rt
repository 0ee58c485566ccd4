//! Whether the words of a translation that ask for prototypes name a FORTRAN file.

ghost use Rattle.std.specs.Prelude.{◌≡◌};
ghost use Rattle.std.specs.List.{list_any};
ghost use Rattle.f2c_outside.specs.Texts.{word_at};
ghost use Rattle.output_names.specs.OutputNames as names;
ghost use Rattle.command_words.specs.CommandWords as words_of;

use crate::command::is_prototype_option;
use f2c_outside::texts::Words;
use output_names::is_file_word;

/// Whether there is a word with this number that asks for prototypes.
fn is_asking(words: &Words, number: usize) -> bool
    ensures { result ≡ words_of.is_some_asking (word_at number words.now) }
{
    match words.get(number) {
        Some(word) => is_prototype_option(word),
        None => false,
    }
}

/// Whether there is a word with this number that names a FORTRAN file.
fn is_source(words: &Words, number: usize) -> bool
    ensures { result ≡ words_of.is_some_source (word_at number words.now) }
{
    match words.get(number) {
        Some(word) => is_file_word(word),
        None => false,
    }
}

/// Whether a word asks for prototypes.
#[tactic(auto, using(crate::proofs::SourceLemmas::asking_found, crate::proofs::SourceLemmas::asking_passed, crate::proofs::SourceLemmas::asking_nowhere))]
fn has_asking(words: &Words) -> bool
    ensures { result ≡ list_any words_of.is_prototype_option words.now }
{
    let mut passed = 0;
    while passed < words.len() {
        if is_asking(words, passed + 1) {
            return true;
        }
        passed += 1;
    }
    false
}

/// Whether a word names a FORTRAN file.
#[tactic(auto, using(crate::proofs::SourceLemmas::source_found, crate::proofs::SourceLemmas::source_passed, crate::proofs::SourceLemmas::source_nowhere))]
fn has_source(words: &Words) -> bool
    ensures { result ≡ list_any names.is_file_word words.now }
{
    let mut passed = 0;
    while passed < words.len() {
        if is_source(words, passed + 1) {
            return true;
        }
        passed += 1;
    }
    false
}

/// Whether prototypes are asked for, and a FORTRAN file is missing behind the last word.
pub(crate) fn lacks_a_file(words: &Words) -> bool
    ensures { result ≡ words_of.lacks_a_file words.now }
{
    has_asking(words) && !has_source(words)
}

/// The number behind that of the last word, as far as words are counted.
pub(crate) fn one_past(words: &Words) -> usize
    ensures { result ≡ words_of.one_past words.now }
{
    let count = words.len();
    if count < usize::MAX { count + 1 } else { count }
}
