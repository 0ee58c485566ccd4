//! Prototype files read.

ghost use Rattle.std.specs.Prelude.{◌≡◌, ◌≤◌, ◌+◌, List, length, Ok, IfOk, IfErr, IfSome};
ghost use Rattle.prototypes.specs.declared.prototype.Prototype.{Prototype};
ghost use Rattle.prototypes.specs.PrototypeText.{Spells, IsPrototypeFile, IsFile};
ghost use Rattle.prototype_laws.specs.Reading.{prototype_within, reading};
ghost use Rattle.proto_file.specs.Failures.{IsRefusal, IsErrOfReading};
ghost use Rattle.proto_file.specs.declared.reader.ProtoFail.TheVariants.{NoMemory};

use crate::line::read_line;
use crate::protos::Protos;
use cards::line_length;
use prototypes::Prototype;
use std::alloc::{AllocError, Global};
use thiserror::Error;

/// The longest file, in bytes.
const MOST_BYTES: usize = 16_777_216;

/// Why a prototype file is not read.
#[derive(Clone, Copy, Debug, PartialEq, Eq, Error)]
pub enum ProtoFail {
    /// No memory is left.
    #[error("out of memory")]
    NoMemory,
    /// This line, from 1, is the first one such that the lines up to it are no prototype file.
    #[error("no prototype at line {line}")]
    NotPrototype { line: usize },
}

impl From<AllocError> for ProtoFail {
    ghost use Rattle.std.specs.Prelude.{◌≡◌};
    ghost use Rattle.proto_file.specs.declared.reader.ProtoFail.TheVariants.{NoMemory};

    ghost from_gives = { λ _ fail. fail ≡ NoMemory };

    fn from(_error: AllocError) -> ProtoFail {
        ProtoFail::NoMemory
    }
}

/// The prototype of a line, behind so many bytes, where it is within the limit.
#[tactic(auto, unfolding(prototype_laws::specs::Reading::prototype_within, prototypes::specs::PrototypeText::most_bytes))]
fn read_within(alloc: Global, size: usize, line: &[u8]) -> Result<Option<Prototype>, AllocError>
    requires { size ≤ 16777216 }
    ensures read { IfOk result (λ found. found ≡ prototype_within size line.now) }
    ensures within { IfOk result (λ found. IfSome found (λ _. size + length line.now ≤ 16777216)) }
{
    if line.len() > MOST_BYTES - size {
        return Ok(None);
    }
    read_line(alloc, line)
}

/// The prototypes of a file, line by line.
fn read_lines(alloc: Global, bytes: &[u8]) -> Result<Protos, ProtoFail>
    ensures read { IfOk result (λ protos. reading bytes.now ≡ Ok protos) }
    ensures refused { IfErr result (IsErrOfReading bytes.now) }
{
    let mut protos = Protos::new(alloc);
    let mut rest = bytes;
    let mut size = 0;
    let mut line = 1;
    while !rest.is_empty() {
        let length = line_length(rest);
        let Some(prototype) = read_within(alloc, size, &rest[..length])? else {
            return Err(ProtoFail::NotPrototype { line });
        };
        protos.push(prototype)?;
        size += length;
        line += 1;
        rest = &rest[length..];
    }
    Ok(protos)
}

/// The prototypes that a text spells, if it is a prototype file: they alone are spelled by it.
///
/// # Errors
///
/// Where the text is no prototype file, its first line such that the lines up to it are none: that line has another form, is empty, has no line feed
/// at its end, or has the first byte past the longest file. A prototype file is refused for want of memory alone.
pub fn read_protos(alloc: Global, bytes: &[u8]) -> Result<Protos, ProtoFail>
    ensures read { IfOk result (IsPrototypeFile bytes.now) }
    ensures alone { IfOk result (λ protos. (other : List Prototype) → Spells bytes.now other → other ≡ protos) }
    ensures refused { IfErr result (IsRefusal bytes.now) }
    ensures whole { IfErr result (λ fail. IsFile bytes.now → fail ≡ NoMemory) }
{
    read_lines(alloc, bytes)
}
