//! From the bytes of a file to its pieces. Section 11.14.

ghost use Rattle.std.specs.Prelude.{◌≡◌, map, None, IfOk, IfErr};
ghost use Rattle.std.specs.List.{concat};
ghost use Rattle.fortran_text.specs.FirstFault.{too_long, IsFailure};
ghost use Rattle.split_pieces.specs.Pieces.{pieces_of, AllButLastEnd, IsPastLimit};

use crate::extents::piece_length;
use crate::pieces::Pieces;
use crate::wanted::wanted_of;
use cards::read_unjudged;
use f_tree::Fail;
use std::alloc::{AllocError, Global};

/// The pieces of a text that is not too long to be read.
fn pieces_of(alloc: Global, bytes: &[u8]) -> Result<Pieces<'_>, AllocError>
    requires { too_long bytes.now ≡ None }
    ensures { IfOk result (λ pieces. pieces ≡ pieces_of bytes.now) }
{
    let mut pieces = Pieces::new(alloc);
    let mut rest = bytes;
    while !rest.is_empty() {
        let length = piece_length(rest);
        let piece = &rest[..length];
        pieces.push(piece, wanted_of(alloc, piece)?)?;
        rest = &rest[length..];
    }
    Ok(pieces)
}

/// The pieces of a file, from its bytes: cut behind each END card. Whatever else its cards are is not judged.
///
/// # Errors
///
/// The row F07, or want of memory.
pub fn cut(alloc: Global, bytes: &[u8]) -> Result<Pieces<'_>, Fail>
    ensures within { IfOk result (λ _. too_long bytes.now ≡ None) }
    ensures cut { IfOk result (λ pieces. pieces ≡ pieces_of bytes.now) }
    ensures joined { IfOk result (λ pieces. concat (map (λ p. p.text) pieces) ≡ bytes.now) }
    ensures ended { IfOk result (λ pieces. AllButLastEnd (map (λ p. p.text) pieces)) }
    ensures failed { IfErr result (IsFailure 0 (IsPastLimit bytes.now)) }
{
    read_unjudged(alloc, bytes, 0)?;
    let pieces = pieces_of(alloc, bytes)?;
    Ok(pieces)
}
