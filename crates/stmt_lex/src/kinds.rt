//! Which statement a text is. Sections 3.3 to 3.5 and 7 to 13, and MIL-STD-1753. Texts are without blanks, in lower case and without what
//! stands inside constants: places in them are cursors.

ghost use Rattle.std.specs.Prelude.{◌≡◌, ◌+◌, ◌<◌, ◌≤◌, drop, option_map, ◌==◌, ◌&&◌, ◌||◌, not, Some};
ghost use Rattle.std.specs.Char.{is_ascii_digit, is_ascii_lowercase};
ghost use Rattle.std.specs.List.{list_any, prefix_len};
ghost use Rattle.fortran_lexemes.specs.KindsOfStatements.{begins_with, nesting_behind, outside_parentheses, after_parentheses, is_while, past_comma, is_labelled_while, is_do_while, is_logical_if, after_amount, after_length, begins_function, begins_typed_function, types, or_nothing, behind_equals, keywords, longer, longest_keyword, kind_with_equals, kind_of_marks, kind_of_characters, kind_of_statement};
ghost use Rattle.fortran_text.specs.CharactersOfText.{is_letter_or_digit};
ghost use Rattle.stmt_lex.specs.CursorWalks.{left, with_marks};

use crate::cursor::{Cursor, has_counted};
use crate::words::word_of;
use fortran_lexemes::StmtKind;
use fortran_text::Character;

/// How many parentheses are open behind a character.
#[tactic(auto, unfolding(fortran_lexemes::specs::KindsOfStatements::nesting_behind))]
fn nesting_behind(depth: usize, c: u8) -> usize
    requires { depth < 18446744073709551615 }
    ensures value { result ≡ nesting_behind depth c }
    ensures within { result ≤ depth + 1 }
{
    if c == b'(' {
        depth + 1
    } else if c == b')' {
        depth.saturating_sub(1)
    } else {
        depth
    }
}

/// The place behind the parenthesis that closes the one open before a text.
fn after_parentheses(text: Cursor) -> Option<Cursor>
    ensures { option_map left result ≡ after_parentheses 1 (left text.entry) }
{
    let mut depth = 1;
    let mut rest = text;
    while depth > 0 {
        let Some((c, behind)) = rest.next() else {
            return None;
        };
        depth = nesting_behind(depth, c);
        rest = behind;
    }
    Some(rest)
}

/// Whether a character stands outside parentheses, of which so many are open before it.
fn stands_outside(depth: usize, c: u8) -> bool
    ensures { result ≡ (depth == 0 && not (c == 40)) }
{
    depth == 0 && c != b'('
}

/// The next character outside parentheses, and the place behind it, where none is open before a text.
fn next_outside(text: Cursor) -> Option<(u8, Cursor)>
    ensures { with_marks result ≡ outside_parentheses 0 (left text.entry) }
{
    let mut depth = 0;
    let mut rest = text;
    while let Some((c, behind)) = rest.next() {
        rest = behind;
        if stands_outside(depth, c) {
            return Some((c, rest));
        }
        depth = nesting_behind(depth, c);
    }
    None
}

/// `WHILE(`, of which the matching parenthesis ends the text.
#[tactic(auto, unfolding(fortran_lexemes::specs::KindsOfStatements::is_while, fortran_lexemes::specs::KindsOfStatements::closed_before))]
fn is_while(text: Cursor) -> bool
    ensures { result ≡ is_while (left text.entry) }
{
    if !text.starts_with(b"while(") {
        return false;
    }
    match after_parentheses(text.behind(6)) {
        Some(rest) => rest.is_at_end(),
        None => false,
    }
}

/// A text without the comma that may begin it.
#[tactic(auto, unfolding(fortran_lexemes::specs::KindsOfStatements::past_comma))]
fn past_comma(text: Cursor) -> Cursor
    ensures { left result ≡ past_comma (left text.entry) }
{
    match text.next() {
        Some((b',', rest)) => rest,
        _ => text,
    }
}

/// Whether a text begins with a digit.
#[tactic(auto, unfolding(fortran_lexemes::specs::KindsOfStatements::begins_with))]
fn begins_digit(text: Cursor) -> bool
    ensures { result ≡ begins_with is_ascii_digit (left text.entry) }
{
    match text.next() {
        Some((c, _)) => c.is_ascii_digit(),
        None => false,
    }
}

/// The place behind the digits that a text begins with.
fn behind_digits(text: Cursor) -> Cursor
    ensures { left result ≡ drop (prefix_len is_ascii_digit (left text.entry)) (left text.entry) }
{
    let mut rest = text;
    while let Some((c, behind)) = rest.next() {
        if !c.is_ascii_digit() {
            return rest;
        }
        rest = behind;
    }
    rest
}

/// A label, a comma that may be left out, and `WHILE(..)`.
#[tactic(auto, unfolding(fortran_lexemes::specs::KindsOfStatements::is_labelled_while))]
fn is_labelled_while(text: Cursor) -> bool
    ensures { result ≡ is_labelled_while (left text.entry) }
{
    begins_digit(text) && is_while(past_comma(behind_digits(text)))
}

/// `DO`, with a label or without one, and `WHILE(..)`.
#[tactic(auto, unfolding(fortran_lexemes::specs::KindsOfStatements::is_do_while))]
fn is_do_while(text: Cursor) -> bool
    ensures { result ≡ is_do_while (left text.entry) }
{
    text.starts_with(b"do") && (is_while(text.behind(2)) || is_labelled_while(text.behind(2)))
}

/// Whether a text begins with a letter or a digit.
#[tactic(auto, unfolding(fortran_lexemes::specs::KindsOfStatements::begins_with))]
fn begins_letter_or_digit(text: Cursor) -> bool
    ensures { result ≡ begins_with is_letter_or_digit (left text.entry) }
{
    match text.next() {
        Some((c, _)) => c.is_ascii_lowercase() || c.is_ascii_digit(),
        None => false,
    }
}

/// `IF(`, with a letter or digit behind the matching parenthesis.
#[tactic(auto, unfolding(fortran_lexemes::specs::KindsOfStatements::is_logical_if, fortran_lexemes::specs::KindsOfStatements::closed_before))]
fn is_logical_if(text: Cursor) -> bool
    ensures { result ≡ is_logical_if (left text.entry) }
{
    if !text.starts_with(b"if(") {
        return false;
    }
    match after_parentheses(text.behind(3)) {
        Some(rest) => begins_letter_or_digit(rest),
        None => false,
    }
}

/// The place behind the parenthesis that closes the one open before a text, or the end.
#[tactic(auto, unfolding(fortran_lexemes::specs::KindsOfStatements::or_nothing))]
fn closed_or_end(text: Cursor) -> Cursor
    ensures { left result ≡ or_nothing (after_parentheses 1 (left text.entry)) }
{
    match after_parentheses(text) {
        Some(rest) => rest,
        None => Cursor::end(),
    }
}

/// The place behind the `n` or `(..)` of a length.
#[tactic(auto, unfolding(fortran_lexemes::specs::KindsOfStatements::after_amount))]
fn after_amount(rest: Cursor) -> Cursor
    ensures { left result ≡ after_amount (left rest.entry) }
{
    if rest.starts_with(b"(") {
        closed_or_end(rest.behind(1))
    } else {
        behind_digits(rest)
    }
}

/// The place behind a length behind the word of a type: `*n` or `*(..)`.
#[tactic(auto, unfolding(fortran_lexemes::specs::KindsOfStatements::after_length))]
fn after_length(text: Cursor) -> Cursor
    ensures { left result ≡ after_length (left text.entry) }
{
    match text.next() {
        Some((b'*', rest)) => after_amount(rest),
        _ => text,
    }
}

/// Whether a text begins with a letter.
#[tactic(auto, unfolding(fortran_lexemes::specs::KindsOfStatements::begins_with))]
fn begins_letter(text: Cursor) -> bool
    ensures { result ≡ begins_with is_ascii_lowercase (left text.entry) }
{
    match text.next() {
        Some((c, _)) => c.is_ascii_lowercase(),
        None => false,
    }
}

/// Whether a text begins with a parenthesis that opens.
#[tactic(auto, unfolding(fortran_lexemes::specs::KindsOfStatements::begins_with))]
fn begins_opening(text: Cursor) -> bool
    ensures { result ≡ begins_with (λ c. c == 40) (left text.entry) }
{
    match text.next() {
        Some((c, _)) => c == b'(',
        None => false,
    }
}

/// Whether a character may stand in a name behind its first letter.
fn is_in_name(c: u8) -> bool
    ensures { result ≡ (is_letter_or_digit c || c == 95) }
{
    c.is_ascii_lowercase() || c.is_ascii_digit() || c == b'_'
}

/// The place behind the characters at the beginning of a text that may stand in a name.
fn behind_name(text: Cursor) -> Cursor
    ensures { left result ≡ drop (prefix_len (λ c. is_letter_or_digit c || c == 95) (left text.entry)) (left text.entry) }
{
    let mut rest = text;
    while let Some((c, behind)) = rest.next() {
        if !is_in_name(c) {
            return rest;
        }
        rest = behind;
    }
    rest
}

/// `FUNCTION`, a name and `(`.
#[tactic(auto, unfolding(fortran_lexemes::specs::KindsOfStatements::begins_function))]
fn begins_function(text: Cursor) -> bool
    ensures { result ≡ begins_function (left text.entry) }
{
    let named = text.behind(8);
    text.starts_with(b"function") && begins_letter(named) && begins_opening(behind_name(named))
}

/// Whether a type of these begins a text, and then a function.
#[tactic(auto, unfolding(fortran_lexemes::specs::KindsOfStatements::begins_typed_function))]
fn begins_function_of(kinds: &[StmtKind], text: Cursor) -> bool
    ensures { result ≡ begins_typed_function kinds.now (left text.entry) }
{
    let [kind, more @ ..] = kinds else {
        return false;
    };
    let word = word_of(*kind);
    (text.starts_with(word) && begins_function(after_length(text.behind(word.len()))))
        || begins_function_of(more, text)
}

/// Whether a type begins a text, and then a function.
#[tactic(auto, unfolding(fortran_lexemes::specs::KindsOfStatements::types))]
fn begins_typed_function(text: Cursor) -> bool
    ensures { result ≡ begins_typed_function types (left text.entry) }
{
    let types = [
        StmtKind::Integer,
        StmtKind::Real,
        StmtKind::DoublePrecision,
        StmtKind::Complex,
        StmtKind::Logical,
        StmtKind::Character,
    ];
    begins_function_of(&types, text)
}

/// The place behind the first `=` outside parentheses, or the end.
#[tactic(auto, unfolding(fortran_lexemes::specs::KindsOfStatements::behind_equals))]
fn behind_equals(text: Cursor) -> Cursor
    ensures { outside_parentheses 0 (left result) ≡ behind_equals (outside_parentheses 0 (left text.entry)) }
{
    let mut rest = text;
    while let Some((c, behind)) = next_outside(rest) {
        rest = behind;
        if c == b'=' {
            return rest;
        }
    }
    rest
}

/// Whether a character stands in a text outside parentheses.
fn has_outside(text: Cursor, wanted: u8) -> bool
    ensures { result ≡ list_any (λ c. c == wanted) (outside_parentheses 0 (left text.entry)) }
{
    let mut rest = text;
    while let Some((c, behind)) = next_outside(rest) {
        if c == wanted {
            return true;
        }
        rest = behind;
    }
    false
}

/// Where an `=` stands outside: a comma after it makes a DO.
#[tactic(auto, unfolding(fortran_lexemes::specs::KindsOfStatements::kind_with_equals))]
fn kind_with_equals(text: Cursor) -> StmtKind
    ensures { result ≡ kind_with_equals (left text.entry) (outside_parentheses 0 (left text.entry)) }
{
    if has_outside(behind_equals(text), b',') {
        StmtKind::Do
    } else if is_logical_if(text) {
        StmtKind::If
    } else {
        StmtKind::Assignment
    }
}

/// The one of two statements that has the longer word.
#[tactic(auto, unfolding(fortran_lexemes::specs::KindsOfStatements::longer))]
fn longer(kind: StmtKind, other: Option<StmtKind>) -> StmtKind
    ensures { Some result ≡ longer kind other }
{
    match other {
        Some(other) if word_of(kind).len() < word_of(other).len() => other,
        _ => kind,
    }
}

/// The statement with the longest of the words that begin a text.
#[tactic(auto, unfolding(fortran_lexemes::specs::KindsOfStatements::longest_keyword))]
fn longest_of(kinds: &[StmtKind], text: Cursor) -> Option<StmtKind>
    ensures { result ≡ longest_keyword kinds.now (left text.entry) }
{
    let [kind, more @ ..] = kinds else {
        return None;
    };
    let other = longest_of(more, text);
    if text.starts_with(word_of(*kind)) {
        Some(longer(*kind, other))
    } else {
        other
    }
}

/// The statement with the longest of all words that begin a text.
#[tactic(auto, unfolding(fortran_lexemes::specs::KindsOfStatements::keywords))]
fn longest_keyword(text: Cursor) -> Option<StmtKind>
    ensures { result ≡ longest_keyword keywords (left text.entry) }
{
    let kinds = [
        StmtKind::Assign,
        StmtKind::Backspace,
        StmtKind::BlockData,
        StmtKind::Call,
        StmtKind::Character,
        StmtKind::Close,
        StmtKind::Common,
        StmtKind::Complex,
        StmtKind::Continue,
        StmtKind::Init,
        StmtKind::Dimension,
        StmtKind::DoublePrecision,
        StmtKind::Else,
        StmtKind::ElseIf,
        StmtKind::End,
        StmtKind::EndDo,
        StmtKind::EndFile,
        StmtKind::EndIf,
        StmtKind::Entry,
        StmtKind::Equivalence,
        StmtKind::External,
        StmtKind::Format,
        StmtKind::Function,
        StmtKind::Goto,
        StmtKind::If,
        StmtKind::Implicit,
        StmtKind::Include,
        StmtKind::Inquire,
        StmtKind::Integer,
        StmtKind::Intrinsic,
        StmtKind::Logical,
        StmtKind::Namelist,
        StmtKind::OpenUnit,
        StmtKind::Parameter,
        StmtKind::Pause,
        StmtKind::Print,
        StmtKind::Program,
        StmtKind::Read,
        StmtKind::Real,
        StmtKind::Return,
        StmtKind::Rewind,
        StmtKind::Save,
        StmtKind::Stop,
        StmtKind::Subroutine,
        StmtKind::Write,
    ];
    longest_of(&kinds, text)
}

/// The kind of the statement that begins at a place, which may be the first of its unit.
#[tactic(auto, unfolding(fortran_lexemes::specs::KindsOfStatements::kind_of_marks))]
fn kind_at(first: bool, text: Cursor) -> Option<StmtKind>
    ensures { result ≡ kind_of_marks first (left text.entry) (outside_parentheses 0 (left text.entry)) }
{
    if is_do_while(text) {
        Some(StmtKind::DoWhile)
    } else if has_outside(text, b'=') {
        Some(kind_with_equals(text))
    } else if first && begins_typed_function(text) {
        Some(StmtKind::Function)
    } else {
        longest_keyword(text)
    }
}

/// The kind of the characters of a statement, which may be the first of its unit.
#[tactic(auto, unfolding(fortran_lexemes::specs::KindsOfStatements::kind_of_characters))]
pub(crate) fn kind_of_characters(first: bool, text: &[Character]) -> Option<StmtKind>
    ensures { result ≡ kind_of_characters first text.now }
{
    kind_at(first, Cursor::of_characters(text))
}

/// The kind of a statement: given whether it is the first of a unit in a file that is not included, whether it has a label, and its text.
/// `None` where it is no DO WHILE, no `=` stands outside its parentheses and constants, and no keyword begins it. It takes no memory, and
/// walks the text a bounded number of times. Sections 3.3 to 3.5 and 7 to 13, and MIL-STD-1753.
#[tactic(auto, unfolding(fortran_lexemes::specs::KindsOfStatements::kind_of_statement, fortran_lexemes::specs::KindsOfStatements::kind_of_characters, fortran_text::specs::CharactersOfText::characters, crate::specs::Cursors::outside_from))]
pub fn classify(first: bool, labelled: bool, text: &[u8]) -> Option<StmtKind>
    ensures { result ≡ kind_of_statement first labelled text.now }
{
    kind_at(first, Cursor::of_text(has_counted(labelled, text), text))
}
