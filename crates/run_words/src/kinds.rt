//! What a word of a run is.

ghost use Rattle.std.specs.Prelude.{◌≡◌, ◌≤◌, length};
ghost use Rattle.run_words.specs.RunWords as words_of;

/// What a word of a run is to be, by the words before it.
#[derive(Clone, Copy, Debug, PartialEq, Eq)]
pub enum Expected {
    /// A C file or an option.
    Any,
    /// The name of a file that the program may open, behind `-file`.
    FileName,
    /// The greatest number of steps, behind `-steps`.
    StepLimit,
}

/// The ending of a C file.
const ENDING: &[u8] = b".c";

/// The most bytes of a name.
const LONGEST_NAME: usize = 255;

/// Whether a word asks for a run.
pub fn is_run(word: &[u8]) -> bool
    ensures { result ≡ words_of.is_run word.now }
{
    word == b"-run".as_slice()
}

/// Whether a word is the option behind which the name of a file stands.
pub(crate) fn is_file_option(word: &[u8]) -> bool
    ensures { result ≡ words_of.is_file_option word.now }
{
    word == b"-file".as_slice()
}

/// Whether a word is the option behind which the greatest number of steps stands.
pub(crate) fn is_limit_option(word: &[u8]) -> bool
    ensures { result ≡ words_of.is_limit_option word.now }
{
    word == b"-steps".as_slice()
}

/// Whether a word ends as a C file does.
fn has_ending(word: &[u8]) -> bool
    requires { 2 ≤ length word.now }
    ensures { result ≡ words_of.has_ending word.now }
{
    &word[word.len() - 2..] == ENDING
}

/// Whether a word names a C file: it ends in `.c`, has a byte before that, and no more than 255 bytes.
pub fn is_c_word(word: &[u8]) -> bool
    ensures { result ≡ words_of.is_c_word word.now }
{
    word.len() > 2 && word.len() <= LONGEST_NAME && has_ending(word)
}

/// Whether a word is a name of 1 to 255 bytes.
pub(crate) fn is_name(word: &[u8]) -> bool
    ensures { result ≡ words_of.is_name word.now }
{
    word.len() > 0 && word.len() <= LONGEST_NAME
}

/// What is to stand behind a word that is a C file or an option.
pub(crate) fn expected_behind(word: &[u8]) -> Expected
    ensures { result ≡ words_of.expected_behind word.now }
{
    if is_file_option(word) {
        Expected::FileName
    } else if is_limit_option(word) {
        Expected::StepLimit
    } else {
        Expected::Any
    }
}
