//! Why nothing is linked.

ghost use Rattle.std.specs.Prelude.{◌≡◌};
ghost use Rattle.expression_linker.specs.declared.failure.LinkFail.TheVariants.{Memory};

use std::alloc::AllocError;

/// Why a part of a text is not linked.
#[derive(Clone, Copy, Debug, PartialEq, Eq)]
pub enum LinkFail {
    /// No memory is left.
    Memory,
    /// A name in it stands for nothing.
    Unknown,
}

impl From<AllocError> for LinkFail {
    ghost from_gives = { λ _ failure. failure ≡ Memory };

    fn from(_error: AllocError) -> LinkFail {
        LinkFail::Memory
    }
}
