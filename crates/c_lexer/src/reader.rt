//! The tokens of a text (C89, 2.1.1.2 and 3.1).

ghost use Rattle.std.specs.Prelude.{◌≡◌, ◌-◌, IfOk};
ghost use Rattle.c_tree.specs.Tokens.{AreTokensOf, still_alone};
ghost use Rattle.c_lexer.specs.SeenTokens.{all_placed};

use crate::head::{Found, Head, Known, head_of};
use crate::spans::line_feeds;
use crate::token::PlacedCToken;
use plain_data::Items;
use std::alloc::{AllocError, Global};

/// Whether only blanks stand on the line behind a gap, given whether only blanks stand before it.
fn still_alone(alone: bool, gap: &[u8]) -> bool
    ensures { result ≡ still_alone alone gap.now }
{
    match gap {
        [] => alone,
        [byte] => *byte == b'\n' || alone,
        _ => false,
    }
}

/// What is known of a text behind its first bytes.
fn known_behind(known: Known, len: usize) -> Known
    ensures quotes { result.quotes ≡ known.quotes - len }
    ensures comments { result.comments ≡ known.comments }
{
    Known {
        quotes: known.quotes.saturating_sub(len),
        comments: known.comments,
    }
}

/// The tokens of a text in their order, with the lines on which they begin, from 1. Each text has them, since bytes that no file has are
/// tokens too. The only error is want of memory.
pub fn tokens(alloc: Global, bytes: &[u8]) -> Result<Items<PlacedCToken>, AllocError>
    ensures { IfOk result (λ found. AreTokensOf bytes.now (all_placed found)) }
{
    let mut found = Items::new(alloc);
    let mut known = Known {
        quotes: 0,
        comments: false,
    };
    let mut line = 1;
    let mut alone = true;
    let mut rest = bytes;
    while let [first, later @ ..] = rest {
        let Found { head, known: shown } = head_of(alloc, alone, known, rest, *first, later)?;
        match head {
            Head::Gap(len) => {
                line += line_feeds(&rest[..len]);
                alone = still_alone(alone, &rest[..len]);
                known = known_behind(shown, len);
                rest = &rest[len..];
                continue;
            }
            Head::Lexeme(token, len) => {
                found.push(PlacedCToken { token, line })?;
                alone = false;
                known = known_behind(shown, len);
                rest = &rest[len..];
            }
        }
    }
    Ok(found)
}
