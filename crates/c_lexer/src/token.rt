//! Tokens of a C text, and where they stand (C89, 3.1).

use c_tree::expression::Text;

/// A sign of the grammar: an operator or a punctuator (C89, 3.1.5 and 3.1.6).
#[derive(Clone, Copy, Debug, PartialEq, Eq)]
pub enum CSign {
    /// `(`
    OpenParenthesis,
    /// `)`
    CloseParenthesis,
    /// `[`
    OpenBracket,
    /// `]`
    CloseBracket,
    /// `{`
    OpenBrace,
    /// `}`
    CloseBrace,
    /// `,`
    Comma,
    /// `;`
    Semicolon,
    /// `:`
    Colon,
    /// `?`
    Question,
    /// `.`
    Period,
    /// `=`
    Assign,
    /// `+=`
    AddAssign,
    /// `++`
    Increment,
    /// `--`
    Decrement,
    /// `+`
    Plus,
    /// `-`
    Minus,
    /// `*`
    Star,
    /// `/`
    Slash,
    /// `%`
    Percent,
    /// `&`
    Ampersand,
    /// `!`
    Exclamation,
    /// `||`
    Or,
    /// `&&`
    And,
    /// `==`
    Equal,
    /// `!=`
    Unequal,
    /// `<`
    Less,
    /// `<=`
    LessOrEqual,
    /// `>`
    Greater,
    /// `>=`
    GreaterOrEqual,
}

/// A token of a C text.
#[derive(Drop)]
pub enum CToken {
    /// The include line.
    Including,
    /// A name, or a word of the subset.
    Word(Text),
    /// A number, from 0 to 2147483647.
    Digits(u32),
    /// A string, by its bytes and without the zero byte behind them.
    Quoted(Text),
    /// A sign.
    Sign(CSign),
    /// Bytes that no file has.
    Bad,
}

/// A token, and the line on which it begins, from 1.
#[derive(Drop)]
pub struct PlacedCToken {
    pub token: CToken,
    pub line: usize,
}
