//! The words of a command line, and the names of files.

ghost use Rattle.std.specs.Prelude.{◌≡◌, ◌↔◌, [], ◌∷◌, ◌++◌, length, option_copied, IfOk, OnOk, OnErr, IsErrOf};
ghost use Rattle.f2c_outside.specs.Texts.{word_at, IsName};

use std::alloc::{AllocError, AllocFailed, Global};
use std::marker::Model;
use thiserror::Error;

/// Memory was wanted and refused. What the call was to change is as it was before.
#[derive(Clone, Copy, Debug, PartialEq, Eq, Error)]
#[error("no memory")]
pub struct NoMemory;

impl From<AllocError> for NoMemory {
    fn from(_refused: AllocError) -> NoMemory {
        NoMemory
    }
}

impl<T: Drop> From<AllocFailed<T>> for NoMemory {
    fn from(_refused: AllocFailed<T>) -> NoMemory {
        NoMemory
    }
}

/// The words of a command line, each a text of any bytes. The program's own name is not among them.
#[derive(Drop)]
pub struct Words {
    words: Vec<Vec<u8>>,
}

impl Model for Words {
    ghost use Rattle.std.specs.Prelude.{List, ℕ, map};

    ghost Value = { List (List ℕ) };

    ghost view = { λ w. map (λ v. v.items) w.words.items };
}

impl Words {
    /// No words yet.
    pub fn new(alloc: Global) -> Result<Words, NoMemory>
        ensures { IfOk result (λ w. w ≡ []) }
    {
        Ok(Words {
            words: Vec::new(alloc),
        })
    }

    /// Puts a word behind the others. After `NoMemory` the words are as before.
    pub fn push(&mut self, word: &[u8]) -> Result<(), NoMemory>
        ensures ok { OnOk result (self.new ≡ self.old ++ word.now ∷ []) }
        ensures err { OnErr result (self.new ≡ self.old) }
    {
        let alloc = *self.words.allocator();
        let text = Vec::from_slice(alloc, word)?;
        self.words.push(text)?;
        Ok(())
    }

    /// How many words there are.
    pub fn len(&self) -> usize
        ensures { result ≡ length self.now }
    {
        self.words.len()
    }

    /// The bytes of the word with this number, counted from 1, or `None` where there is none.
    pub fn get(&self, number: usize) -> Option<&[u8]>
        ensures { option_copied result ≡ word_at number self.now }
    {
        if number == 0 || number > self.words.len() {
            return None;
        }
        let word = &self.words[number - 1];
        Some(word.as_slice())
    }
}

/// Why a name was not made.
#[derive(Clone, Copy, Debug, PartialEq, Eq, Error)]
pub enum NameFail {
    /// Memory was refused.
    #[error("no memory")]
    NoMemory,
    /// The name has no byte, or more than 255.
    #[error("no name of 1 to 255 bytes")]
    BadName,
}

/// The name of a file: 1 to 255 bytes.
#[derive(Drop)]
pub struct Name {
    bytes: Vec<u8>,
}

impl Model for Name {
    ghost use Rattle.std.specs.Prelude.{List, ℕ};
    ghost use Rattle.f2c_outside.specs.Texts.{IsName};

    ghost Value = { List ℕ };

    ghost view = { λ n. n.bytes.items };

    ghost invariant = { λ n. IsName n.bytes.items };
}

/// The most bytes that a name has.
const LONGEST_NAME: usize = 255;

impl Name {
    /// A name of these bytes. `BadName` comes exactly where they are none or more than 255.
    pub fn new(alloc: Global, bytes: &[u8]) -> Result<Name, NameFail>
        ensures named { IfOk result (λ n. n ≡ bytes.now) }
        ensures fits { OnOk result (IsName bytes.now) }
        ensures bad { IsErrOf result NameFail.BadName ↔ ¬ IsName bytes.now }
    {
        if bytes.is_empty() || bytes.len() > LONGEST_NAME {
            return Err(NameFail::BadName);
        }
        match Vec::from_slice(alloc, bytes) {
            Ok(bytes) => Ok(Name { bytes }),
            Err(_) => Err(NameFail::NoMemory),
        }
    }

    /// The same name, in memory of its own.
    pub fn copy(&self, alloc: Global) -> Result<Name, NoMemory>
        ensures { IfOk result (λ name. name ≡ self.now) }
    {
        let bytes = Vec::from_slice(alloc, self.bytes.as_slice())?;
        Ok(Name { bytes })
    }

    /// The bytes of the name.
    pub fn as_bytes(&self) -> &[u8]
        ensures value { result.now ≡ self.now }
        ensures fits { IsName self.now }
    {
        self.bytes.as_slice()
    }
}
