//! Pieces of a text by where they stand in it.

ghost use Rattle.std.specs.Prelude.{◌≡◌};

use f_tree::{BinaryOp, Kind};
use fortran_lexemes::{Mode, Sign, StmtKind};
use fortran_text::Character;
use plain_data::Items;

/// Characters of a text: where the first one stands, and how many there are.
#[derive(Clone, Copy, Debug, PartialEq, Eq)]
pub struct Span {
    pub from: usize,
    pub len: usize,
}

/// A piece of a text. A name, a number, a constant and the text of a FORMAT statement are told by their characters.
#[derive(Clone, Copy, Debug, PartialEq, Eq)]
pub enum Token {
    /// A letter and up to 30 letters, digits and underscores.
    Name(Span),
    /// A name of more characters.
    LongName,
    /// Digits, and their value, up to 2147483647.
    Number(Span, u32),
    /// Digits with a greater value.
    TooLarge,
    /// A character constant, by the characters between its apostrophes.
    Quoted(Span),
    /// A character constant that is empty or not closed.
    BadQuote,
    /// An operator between two operands.
    Infix(BinaryOp),
    /// `.NOT.`
    Negation,
    /// `.TRUE.` or `.FALSE.`
    Truth(bool),
    /// A sign that is no operator.
    Mark(Sign),
    /// The word of a statement or of a type, where one may stand.
    Word(StmtKind),
    /// TO behind the label of an ASSIGN statement.
    To,
    /// THEN behind the condition of IF or ELSE IF.
    Then,
    /// The text of a FORMAT statement, from the opening parenthesis to the closing one.
    FormatText(Span),
    /// Another character.
    Other(u8),
}

/// Why a text has no tokens.
#[derive(Clone, Copy, Debug, PartialEq, Eq)]
pub enum LexFail {
    /// There is not enough memory.
    NoMemory,
    /// The text has this row.
    Refused(Kind),
}

/// A piece at the beginning of a text, and how many characters it takes.
#[derive(Clone, Copy)]
pub(crate) struct Cut {
    pub(crate) token: Token,
    pub(crate) len: usize,
}

/// What is cut at the beginning of a text: a piece or none, how many characters it takes, and which words may stand behind it.
#[derive(Clone, Copy)]
pub(crate) struct Step {
    pub(crate) token: Option<Token>,
    pub(crate) len: usize,
    pub(crate) next: Mode,
}

/// The tokens of a statement, with the characters of its text, which they are told by.
#[derive(Drop)]
pub struct TokenList {
    pub(crate) text: Items<Character>,
    pub(crate) tokens: Items<Token>,
}

impl TokenList {
    /// The characters of the text, without the blanks outside constants.
    pub fn text(&self) -> &[Character]
        ensures { result.now ≡ self.now.text }
    {
        self.text.as_slice()
    }

    /// The tokens, in their order.
    pub fn tokens(&self) -> &[Token]
        ensures { result.now ≡ self.now.tokens }
    {
        self.tokens.as_slice()
    }
}
