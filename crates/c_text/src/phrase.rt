//! Fixed phrases of the house form.
ghost use Rattle.std.specs.Prelude.{◌≡◌};
ghost use Rattle.c_text.specs.Phrases.{letters};

/// A phrase that stands in every text in the same letters.
#[derive(Clone, Copy)]
pub(crate) enum Phrase {
    /// What every file begins with.
    Head,
    /// The heading of the external objects.
    Objects,
    /// The heading of the constants.
    Constants,
    /// Before the name of a constant.
    StaticInteger,
    /// Before the name of a text.
    StaticChars,
    /// Before a declaration that keeps its value.
    Static,
    /// Before a function of another text.
    Extern,
    /// Before the value of a switch.
    Switch,
    /// Before the test behind a block.
    While,
    /// Between the arms of an `if`.
    Else,
    /// Between a case's number and its label.
    CaseGoto,
    /// Before the value that a function gives.
    Return,
}

/// The letters of a phrase.
#[tactic(auto, unfolding(crate::specs::Phrases::letters))]
pub(crate) fn letters(of: Phrase) -> &'static [u8]
    ensures { result.now ≡ letters of }
{
    match of {
        Phrase::Head => b"/* translated by f2c */\n\n#include \"f2c.h\"\n",
        Phrase::Objects => b"\n/* Common Block Declarations */\n\n",
        Phrase::Constants => b"\n/* Table of constant values */\n\n",
        Phrase::StaticInteger => b"static integer ",
        Phrase::StaticChars => b"static char ",
        Phrase::Static => b"static ",
        Phrase::Extern => b"extern ",
        Phrase::Switch => b"switch (",
        Phrase::While => b"} while (",
        Phrase::Else => b"} else {",
        Phrase::CaseGoto => b": goto ",
        Phrase::Return => b"return ",
    }
}
