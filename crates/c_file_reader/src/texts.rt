//! Texts of C files, and why one is not read.

ghost use Rattle.std.specs.Prelude.{◌≡◌, ◌-◌, length, drop};
ghost use Rattle.c_lexer.specs.SeenTokens.{all_placed};
ghost use Rattle.c_file_laws.specs.FileLaws.{line_at};
ghost use Rattle.c_file_reader.specs.ReadTexts.{IsRead};

use crate::files::read_file;
use c_expression_reader::Failure;
use c_lexer::{PlacedCToken, last_line, tokens};
use c_tree::file::CFile;
use std::alloc::Global;
use thiserror::Error;

/// Why a text is not read.
#[derive(Clone, Copy, Debug, PartialEq, Eq, Error)]
pub enum ReadFail {
    /// The text is no C of the subset: nothing goes on with what stands on this line, from 1, or the text ends there too early.
    #[error("no C at line {line}")]
    NotC { line: usize },
    /// No memory is left, or more constructs are open at once than the machine's stack holds readers of.
    #[error("out of memory")]
    NoMemory,
}

/// The line of the token that stands first, or of the end of the text.
#[tactic(auto, unfolding(c_lexer::specs::SeenTokens::placed))]
fn line_at(bytes: &[u8], tokens: &[PlacedCToken]) -> usize
    ensures { result ≡ line_at bytes.now (all_placed tokens.now) }
{
    match tokens {
        [first, ..] => first.line,
        [] => last_line(bytes),
    }
}

/// The line of the token from which on so many tokens stand, or of the end of the text where none does.
#[tactic(auto, using(crate::proofs::TextSteps::line_behind))]
fn line_before(bytes: &[u8], tokens: &[PlacedCToken], left: usize) -> usize
    ensures { result ≡ line_at bytes.now (drop (length tokens.now - left) (all_placed tokens.now)) }
{
    line_at(bytes, &tokens[tokens.len().saturating_sub(left)..])
}

/// The C file that a text spells.
///
/// # Errors
///
/// The line at which the text is refused, where it spells none: that of the first token such that the tokens up to it begin no file, or that of its
/// end. Or want of memory.
#[tactic(auto, using(crate::proofs::TextSteps::read_text, crate::proofs::TextSteps::refused_text))]
pub fn read_c(alloc: Global, bytes: &[u8]) -> Result<CFile, ReadFail>
    ensures { IsRead bytes.now result }
{
    let Ok(tokens) = tokens(alloc, bytes) else {
        return Err(ReadFail::NoMemory);
    };
    let nests = tokens.len() + 1;
    match read_file(alloc, tokens.as_slice(), nests) {
        Ok(file) => Ok(file),
        Err(Failure::Memory) => Err(ReadFail::NoMemory),
        Err(Failure::NotC(rest)) => {
            let line = line_before(bytes, tokens.as_slice(), rest.len());
            Err(ReadFail::NotC { line })
        }
    }
}
