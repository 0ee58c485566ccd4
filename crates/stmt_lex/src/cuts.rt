//! The piece at the beginning of a text where no word of a statement stands. Sections 2.2, 3.1, 4.3, 4.7, 4.8 and 6.

ghost use Rattle.std.specs.Prelude.{◌≡◌, ◌+◌, ◌<◌, ◌≤◌, ◌∷◌, ◌++◌, min, suc, true, length, option_map, IfSome};
ghost use Rattle.fortran_lexemes.specs.PiecesOfText.{is_in_name, is_digit, named, numbered, run_of, constant_end, quoted_to, order_words, equality_words, logical_words, dotted_at, pointed, once_or_twice, sign_of, cut_at};
ghost use Rattle.stmt_lex.specs.DigitValues.{digits_capped};
ghost use Rattle.stmt_lex.specs.SeenTokens.{lexeme_of, seen_cut};
ghost use Rattle.stmt_lex.specs.declared.token.Token.TheVariants.{Infix};

use crate::classes::{begins, digits_len, is_digit, is_letter, is_mark, name_len};
use crate::token::{Cut, Span, Token};
use f_tree::BinaryOp;
use fortran_lexemes::Sign;
use fortran_text::Character;

/// The longest name.
const NAME: usize = 31;
/// One more than the greatest integer.
const PAST_GREATEST: u64 = 2_147_483_648;

/// A name, of which the first character is given apart.
#[tactic(auto, using(crate::proofs::CutLemmas::long_name, crate::proofs::CutLemmas::short_name))]
fn name_cut(first: Character, rest: &[Character]) -> Cut
    requires { is_in_name first ≡ true }
    ensures value { seen_cut (first ∷ rest.now) result ≡ run_of is_in_name named (first ∷ rest.now) }
    ensures some { 0 < result.len }
    ensures within { result.len ≤ suc (length rest.now) }
{
    let len = name_len(rest) + 1;
    if len > NAME {
        return Cut {
            token: Token::LongName,
            len,
        };
    }
    Cut {
        token: Token::Name(Span { from: 0, len }),
        len,
    }
}

/// The value of the digits that a text begins with, behind digits of another value; past the greatest integer it is one more than that.
fn digits_capped(before: u64, text: &[Character]) -> u64
    requires { before ≤ 2147483648 }
    ensures value { result ≡ digits_capped before text.now }
    ensures within { result ≤ 2147483648 }
{
    let mut value = before;
    let mut rest = text;
    while let [c, behind @ ..] = rest {
        if !is_digit(*c) {
            return value;
        }
        value = (value * 10 + u64::from(c.code - b'0')).min(PAST_GREATEST);
        rest = behind;
    }
    value
}

/// An integer constant, of which the first digit is given apart.
#[tactic(auto, using(crate::proofs::CutLemmas::large_number, crate::proofs::CutLemmas::small_number))]
fn number_cut(first: Character, rest: &[Character]) -> Cut
    requires { is_digit first ≡ true }
    ensures value { seen_cut (first ∷ rest.now) result ≡ run_of is_digit numbered (first ∷ rest.now) }
    ensures some { 0 < result.len }
    ensures within { result.len ≤ suc (length rest.now) }
{
    let len = digits_len(rest) + 1;
    let value = digits_capped(u64::from(first.code - b'0'), rest);
    if value >= PAST_GREATEST {
        return Cut {
            token: Token::TooLarge,
            len,
        };
    }
    Cut {
        token: Token::Number(Span { from: 0, len }, value as u32),
        len,
    }
}

/// How many characters stand before the apostrophe that closes a constant, by the text behind the opening one; none where it is not closed.
#[tactic(auto, unfolding(fortran_lexemes::specs::PiecesOfText::constant_end))]
pub(crate) fn constant_end(text: &[Character]) -> Option<usize>
    ensures value { result ≡ constant_end 0 text.now }
    ensures within { IfSome result (λ n. n < length text.now) }
{
    let mut passed = 0;
    let mut rest = text;
    while let [c, behind @ ..] = rest {
        if !is_mark(b'\'', *c) {
            passed += 1;
            rest = behind;
            continue;
        }
        let [d, more @ ..] = behind else {
            return Some(passed);
        };
        if !is_mark(b'\'', *d) {
            return Some(passed);
        }
        passed += 2;
        rest = more;
    }
    None
}

/// A character constant, by the text behind the opening apostrophe.
#[tactic(auto, using(crate::proofs::CutLemmas::open_constant, crate::proofs::CutLemmas::empty_constant, crate::proofs::CutLemmas::full_constant))]
fn quoted_cut(first: Character, rest: &[Character]) -> Cut
    ensures value { seen_cut (first ∷ rest.now) result ≡ quoted_to (constant_end 0 rest.now) rest.now }
    ensures some { 0 < result.len }
    ensures within { result.len ≤ suc (length rest.now) }
{
    match constant_end(rest) {
        None => Cut {
            token: Token::BadQuote,
            len: rest.len() + 1,
        },
        Some(0) => Cut {
            token: Token::BadQuote,
            len: 2,
        },
        Some(n) => Cut {
            token: Token::Quoted(Span { from: 1, len: n }),
            len: n + 2,
        },
    }
}

/// An operator of order behind its first point.
#[tactic(auto, unfolding(fortran_lexemes::specs::PiecesOfText::order_words, fortran_lexemes::specs::PiecesOfText::dotted_at, crate::specs::SeenTokens::seen_cut, crate::specs::SeenTokens::lexeme_of))]
fn order_cut(first: Character, rest: &[Character]) -> Option<Cut>
    ensures value { option_map (seen_cut (first ∷ rest.now)) result ≡ dotted_at order_words rest.now }
    ensures some { IfSome result (λ cut. 0 < cut.len) }
    ensures within { IfSome result (λ cut. cut.len ≤ suc (length rest.now)) }
{
    if begins(b"lt.", rest) {
        Some(infix(BinaryOp::Less, 4))
    } else if begins(b"le.", rest) {
        Some(infix(BinaryOp::LessOrEqual, 4))
    } else if begins(b"gt.", rest) {
        Some(infix(BinaryOp::Greater, 4))
    } else if begins(b"ge.", rest) {
        Some(infix(BinaryOp::GreaterOrEqual, 4))
    } else {
        None
    }
}

/// An operator of so many characters.
fn infix(op: BinaryOp, len: usize) -> Cut
    ensures { result ≡ record { token = Infix op; len = len } }
{
    Cut {
        token: Token::Infix(op),
        len,
    }
}

/// A piece of so many characters.
fn one_word(token: Token, len: usize) -> Cut
    ensures { result ≡ record { token = token; len = len } }
{
    Cut { token, len }
}

/// An operator of equality or equivalence behind its first point.
#[tactic(auto, unfolding(fortran_lexemes::specs::PiecesOfText::equality_words, fortran_lexemes::specs::PiecesOfText::dotted_at, crate::specs::SeenTokens::seen_cut, crate::specs::SeenTokens::lexeme_of))]
fn equality_cut(first: Character, rest: &[Character]) -> Option<Cut>
    ensures value { option_map (seen_cut (first ∷ rest.now)) result ≡ dotted_at equality_words rest.now }
    ensures some { IfSome result (λ cut. 0 < cut.len) }
    ensures within { IfSome result (λ cut. cut.len ≤ suc (length rest.now)) }
{
    if begins(b"eq.", rest) {
        Some(infix(BinaryOp::Equal, 4))
    } else if begins(b"ne.", rest) {
        Some(infix(BinaryOp::NotEqual, 4))
    } else if begins(b"eqv.", rest) {
        Some(infix(BinaryOp::Equivalent, 5))
    } else if begins(b"neqv.", rest) {
        Some(infix(BinaryOp::NotEquivalent, 6))
    } else {
        None
    }
}

/// A logical operator or constant behind its first point.
#[tactic(auto, unfolding(fortran_lexemes::specs::PiecesOfText::logical_words, fortran_lexemes::specs::PiecesOfText::dotted_at, crate::specs::SeenTokens::seen_cut, crate::specs::SeenTokens::lexeme_of))]
fn logical_cut(first: Character, rest: &[Character]) -> Option<Cut>
    ensures value { option_map (seen_cut (first ∷ rest.now)) result ≡ dotted_at logical_words rest.now }
    ensures some { IfSome result (λ cut. 0 < cut.len) }
    ensures within { IfSome result (λ cut. cut.len ≤ suc (length rest.now)) }
{
    if begins(b"and.", rest) {
        Some(infix(BinaryOp::And, 5))
    } else if begins(b"or.", rest) {
        Some(infix(BinaryOp::Or, 4))
    } else if begins(b"not.", rest) {
        Some(one_word(Token::Negation, 5))
    } else if begins(b"true.", rest) {
        Some(one_word(Token::Truth(true), 6))
    } else if begins(b"false.", rest) {
        Some(one_word(Token::Truth(false), 7))
    } else {
        None
    }
}

/// An operator or a logical constant that begins with a point.
#[tactic(auto, using(crate::proofs::DottedLemmas::first_found, crate::proofs::DottedLemmas::second_found, crate::proofs::DottedLemmas::third_found))]
fn dotted_at(first: Character, rest: &[Character]) -> Option<Cut>
    ensures value { option_map (seen_cut (first ∷ rest.now)) result ≡ dotted_at (order_words ++ equality_words ++ logical_words) rest.now }
    ensures some { IfSome result (λ cut. 0 < cut.len) }
    ensures within { IfSome result (λ cut. cut.len ≤ suc (length rest.now)) }
{
    let order = order_cut(first, rest);
    if order.is_some() {
        return order;
    }
    let equality = equality_cut(first, rest);
    if equality.is_some() {
        return equality;
    }
    logical_cut(first, rest)
}

/// What begins with a point.
fn pointed_cut(first: Character, rest: &[Character]) -> Cut
    ensures value { seen_cut (first ∷ rest.now) result ≡ pointed (dotted_at (order_words ++ equality_words ++ logical_words) rest.now) rest.now }
    ensures some { 0 < result.len }
    ensures within { result.len ≤ suc (length rest.now) }
{
    match dotted_at(first, rest) {
        Some(cut) => cut,
        None => one_word(Token::Mark(Sign::Point), 1),
    }
}

/// A sign that may stand twice.
#[tactic(auto, unfolding(fortran_lexemes::specs::PiecesOfText::once_or_twice, crate::specs::SeenTokens::seen_cut))]
fn once_or_twice(first: Character, code: u8, once: Token, twice: Token, rest: &[Character]) -> Cut
    ensures value { seen_cut (first ∷ rest.now) result ≡ once_or_twice code (lexeme_of (first ∷ rest.now) once) (lexeme_of (first ∷ rest.now) twice) rest.now }
    ensures some { 0 < result.len }
    ensures within { result.len ≤ suc (length rest.now) }
{
    match rest {
        [next, ..] if is_mark(code, *next) => one_word(twice, 2),
        _ => one_word(once, 1),
    }
}

/// A character that is none of the others.
#[tactic(auto, unfolding(fortran_lexemes::specs::PiecesOfText::sign_of, crate::specs::SeenTokens::seen_cut, crate::specs::SeenTokens::lexeme_of))]
fn sign_cut(first: Character, rest: &[Character]) -> Cut
    ensures value { seen_cut (first ∷ rest.now) result ≡ record { piece = sign_of first; rest = rest.now } }
    ensures some { 0 < result.len }
    ensures within { result.len ≤ suc (length rest.now) }
{
    if is_mark(b'(', first) {
        one_word(Token::Mark(Sign::Open), 1)
    } else if is_mark(b')', first) {
        one_word(Token::Mark(Sign::Close), 1)
    } else if is_mark(b',', first) {
        one_word(Token::Mark(Sign::Comma), 1)
    } else if is_mark(b'=', first) {
        one_word(Token::Mark(Sign::Equals), 1)
    } else if is_mark(b':', first) {
        one_word(Token::Mark(Sign::Colon), 1)
    } else if is_mark(b'+', first) {
        infix(BinaryOp::Plus, 1)
    } else if is_mark(b'-', first) {
        infix(BinaryOp::Minus, 1)
    } else {
        one_word(Token::Other(first.code), 1)
    }
}

/// The piece at the beginning of a text, of which the first character is given apart.
#[tactic(auto, unfolding(fortran_lexemes::specs::PiecesOfText::cut_at, crate::specs::SeenTokens::lexeme_of))]
pub(crate) fn cut_at(first: Character, rest: &[Character]) -> Cut
    ensures value { seen_cut (first ∷ rest.now) result ≡ cut_at first rest.now }
    ensures some { 0 < result.len }
    ensures within { result.len ≤ suc (length rest.now) }
{
    if is_letter(first) {
        name_cut(first, rest)
    } else if is_digit(first) {
        number_cut(first, rest)
    } else if is_mark(b'\'', first) {
        quoted_cut(first, rest)
    } else if is_mark(b'.', first) {
        pointed_cut(first, rest)
    } else if is_mark(b'*', first) {
        once_or_twice(
            first,
            b'*',
            Token::Infix(BinaryOp::Times),
            Token::Infix(BinaryOp::Power),
            rest,
        )
    } else if is_mark(b'/', first) {
        once_or_twice(
            first,
            b'/',
            Token::Infix(BinaryOp::Divide),
            Token::Infix(BinaryOp::Concatenate),
            rest,
        )
    } else {
        sign_cut(first, rest)
    }
}
