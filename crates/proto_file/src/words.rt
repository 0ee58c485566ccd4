//! The words of a line.

ghost use Rattle.std.specs.Prelude.{◌≡◌, ◌≤◌, length, map, IfOk};
ghost use Rattle.std.specs.List.{prefix_len};
ghost use Rattle.c_tree.specs.Tokens.{is_word_byte};
ghost use Rattle.prototype_laws.specs.Reading.{words};

use c_lexer::is_word_byte;
use std::alloc::{AllocError, Global};

/// How many letters, digits and underscores begin a text.
fn word_length(text: &[u8]) -> usize
    ensures value { result ≡ prefix_len is_word_byte text.now }
    ensures within { result ≤ length text.now }
{
    let mut passed = 0;
    let mut rest = text;
    while let [first, behind @ ..] = rest {
        if !is_word_byte(*first) {
            return passed;
        }
        passed += 1;
        rest = behind;
    }
    passed
}

/// The words of a line: its longest runs of letters, digits and underscores.
#[tactic(auto, using(crate::proofs::WordSteps::word_steps, std::proofs::lemmas::Grind::common_steps))]
pub(crate) fn words_of(alloc: Global, line: &[u8]) -> Result<Vec<&[u8]>, AllocError>
    ensures { IfOk result (λ found. map (λ w. w.now) found.items ≡ words line.now) }
{
    let mut found = Vec::new(alloc);
    let mut rest = line;
    while let [first, behind @ ..] = rest {
        if is_word_byte(*first) {
            let length = word_length(rest);
            found.push(&rest[..length])?;
            rest = &rest[length..];
        } else {
            rest = behind;
        }
    }
    Ok(found)
}
