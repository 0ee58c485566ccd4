//! Why nothing is read.

ghost use Rattle.std.specs.Prelude.{◌≡◌};
ghost use Rattle.c_expression_reader.specs.declared.failure.Failure.TheVariants.{Memory};

use c_lexer::PlacedCToken;
use std::alloc::AllocError;

/// How many constructs may be open at once at most, so that the machine's stack holds their readers.
pub const MOST_NESTS: usize = 2048;

/// Why nothing is read.
#[derive(Clone, Copy)]
pub enum Failure<'a> {
    /// No memory is left, or more constructs are open than may be, or a list is longer than it may be.
    Memory,
    /// With the first of these tokens, or with the end of the text where there is none, nothing goes on.
    NotC(&'a [PlacedCToken]),
}

impl<'a> From<AllocError> for Failure<'a> {
    ghost from_gives = { λ _ failure. failure ≡ Memory };

    fn from(_error: AllocError) -> Failure<'a> {
        Failure::Memory
    }
}
