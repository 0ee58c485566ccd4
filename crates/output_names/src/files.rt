//! Words that name files, and the names of their translations.

ghost use Rattle.std.specs.Prelude.{◌≡◌, ◌≤◌, ◌++◌, length, bytes_eq, IsTrue, IfOk};
ghost use Rattle.f2c_outside.specs.Texts.{IsName};
ghost use Rattle.output_names.specs.OutputNames as names;

use f2c_outside::texts::{Name, NameFail, NoMemory};
use std::alloc::Global;

/// The ending of a FORTRAN file.
const ENDING: &[u8] = b".f";

/// The ending of a prototype file.
const PROTOTYPE_ENDING: &[u8] = b".P";

/// The ending of a C file.
const C_ENDING: &[u8] = b".c";

/// The most bytes of a name.
const LONGEST_NAME: usize = 255;

/// Whether a word ends as a FORTRAN file does.
fn has_ending(word: &[u8]) -> bool
    requires { 2 ≤ length word.now }
    ensures { result ≡ names.has_ending word.now }
{
    &word[word.len() - 2..] == ENDING
}

/// Whether a word names a FORTRAN file: it ends in `.f`, has a byte before that, and no more than 255 bytes.
pub fn is_file_word(word: &[u8]) -> bool
    ensures { result ≡ names.is_file_word word.now }
{
    word.len() > 2 && word.len() <= LONGEST_NAME && has_ending(word)
}

/// Whether a word ends as a prototype file does.
fn has_prototype_ending(word: &[u8]) -> bool
    requires { 2 ≤ length word.now }
    ensures { result ≡ names.has_prototype_ending word.now }
{
    &word[word.len() - 2..] == PROTOTYPE_ENDING
}

/// Whether a word names a prototype file: it ends in `.P`, has a byte before that, and no more than 255 bytes.
pub fn is_prototype_word(word: &[u8]) -> bool
    ensures { result ≡ names.is_prototype_word word.now }
{
    word.len() > 2 && word.len() <= LONGEST_NAME && has_prototype_ending(word)
}

/// Where the part behind the last slash begins.
fn last_part_start(bytes: &[u8]) -> usize
    ensures value { result ≡ names.last_part_from 0 0 bytes.now }
    ensures within { result ≤ length bytes.now }
{
    let mut start = 0;
    for (place, byte) in bytes.iter().enumerate() {
        if *byte == b'/' {
            start = place + 1;
        }
    }
    start
}

/// The part behind the last slash.
fn last_part(bytes: &[u8]) -> &[u8]
    ensures { result.now ≡ names.last_part bytes.now }
{
    &bytes[last_part_start(bytes)..]
}

/// The name of the FORTRAN file that a word names, without its folder and its ending.
fn stem_of(word: &[u8]) -> &[u8]
    requires { IsTrue (names.is_file_word word.now) }
    ensures { result.now ≡ names.stem_of word.now }
{
    last_part(&word[..word.len() - 2])
}

/// A name of these bytes.
fn name_of(alloc: Global, bytes: &[u8]) -> Result<Name, NoMemory>
    requires { IsName bytes.now }
    ensures { IfOk result (λ name. name ≡ bytes.now) }
{
    match Name::new(alloc, bytes) {
        Ok(name) => Ok(name),
        Err(NameFail::NoMemory) => Err(NoMemory),
        Err(NameFail::BadName) => unreachable!(),
    }
}

/// Whether the FORTRAN files that two words name have one output name.
fn give_one_output(one: &[u8], other: &[u8]) -> bool
    requires one_file { IsTrue (names.is_file_word one.now) }
    requires other_file { IsTrue (names.is_file_word other.now) }
    ensures { result ≡ bytes_eq (names.output_name one.now) (names.output_name other.now) }
{
    stem_of(one) == stem_of(other)
}

/// Whether two words name FORTRAN files with one output name.
pub fn have_one_output(one: &[u8], other: &[u8]) -> bool
    ensures { result ≡ names.have_one_output one.now other.now }
{
    is_file_word(one) && is_file_word(other) && give_one_output(one, other)
}

/// The name of the FORTRAN file that a word names.
pub(crate) fn input_name(alloc: Global, word: &[u8]) -> Result<Name, NoMemory>
    requires { IsTrue (names.is_file_word word.now) }
    ensures { IfOk result (λ name. name ≡ word.now) }
{
    name_of(alloc, word)
}

/// The name of the prototype file that a word names.
pub(crate) fn prototype_name(alloc: Global, word: &[u8]) -> Result<Name, NoMemory>
    requires { IsTrue (names.is_prototype_word word.now) }
    ensures { IfOk result (λ name. name ≡ word.now) }
{
    name_of(alloc, word)
}

/// The name of the FORTRAN file that a word names, without its folder, with another ending.
fn name_ending(alloc: Global, word: &[u8], ending: &[u8]) -> Result<Name, NoMemory>
    requires file { IsTrue (names.is_file_word word.now) }
    requires two { length ending.now ≡ 2 }
    ensures { IfOk result (λ name. name ≡ names.stem_of word.now ++ ending.now) }
{
    let mut bytes = Vec::from_slice(alloc, stem_of(word))?;
    bytes.extend_from_slice(ending)?;
    name_of(alloc, &bytes)
}

/// The name of the C file that is the translation of the FORTRAN file that a word names: that file's name without its folder, with `.c` in place of `.f`.
pub(crate) fn output_name(alloc: Global, word: &[u8]) -> Result<Name, NoMemory>
    requires { IsTrue (names.is_file_word word.now) }
    ensures { IfOk result (λ name. name ≡ names.output_name word.now) }
{
    name_ending(alloc, word, C_ENDING)
}

/// The name of the file of its prototypes, likewise, with `.P` in place of `.f`.
pub(crate) fn prototype_output(alloc: Global, word: &[u8]) -> Result<Name, NoMemory>
    requires { IsTrue (names.is_file_word word.now) }
    ensures { IfOk result (λ name. name ≡ names.prototype_output word.now) }
{
    name_ending(alloc, word, PROTOTYPE_ENDING)
}
