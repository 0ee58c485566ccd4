//! What begins an operand (C89, 3.3.1 to 3.3.4).

ghost use Rattle.std.specs.Prelude.{◌≡◌, option_map};
ghost use Rattle.c_lexer.specs.SeenTokens.{sign_codes};
ghost use Rattle.c_readers.specs.Readers.{lookup};
ghost use Rattle.c_readers.specs.ExpressionReader as reader;
ghost use Rattle.c_scope.specs.ScopeSeen.{scope_of};
ghost use Rattle.c_expression_reader.specs.Leads.{seen_sign_lead, seen_word_lead};

use c_lexer::CSign;
use c_scope::CScope;
use c_tree::expression::{CExpr, Extreme, UnaryOp};
use c_tree::types::{CastType, FunctionType};

/// An operand, with its level.
#[derive(Drop)]
pub(crate) struct Operand {
    pub(crate) level: u8,
    pub(crate) tree: CExpr,
}

/// What a sign begins.
#[derive(Clone, Copy)]
pub(crate) enum SignLead {
    /// A cast, or an expression in parentheses.
    Opening,
    /// An operator before its operand.
    Before(UnaryOp),
}

/// What a word begins.
#[derive(Clone, Copy)]
pub(crate) enum WordLead {
    /// `sizeof`
    Sized,
    /// `max` or `min`
    Extremal(Extreme),
    /// `abs`
    Absolute,
    /// A name that is known.
    Named,
}

/// What a sign begins at some place, if it begins something.
#[tactic(auto, unfolding(crate::specs::Leads::seen_sign_lead, c_lexer::specs::SeenTokens::sign_codes))]
fn listed_sign(sign: CSign) -> Option<SignLead>
    ensures { option_map seen_sign_lead result ≡ lookup (sign_codes sign) reader.leading_signs }
{
    match sign {
        CSign::OpenParenthesis => Some(SignLead::Opening),
        CSign::Minus => Some(SignLead::Before(UnaryOp::Minus)),
        CSign::Exclamation => Some(SignLead::Before(UnaryOp::Not)),
        CSign::Star => Some(SignLead::Before(UnaryOp::Deref)),
        CSign::Ampersand => Some(SignLead::Before(UnaryOp::Address)),
        _ => None,
    }
}

/// What a sign begins at a place, if it begins something.
#[tactic(auto, unfolding(crate::specs::Leads::seen_sign_lead, c_readers::specs::ExpressionReader::sign_lead))]
pub(crate) fn sign_lead(place: u8, sign: CSign) -> Option<SignLead>
    ensures { option_map seen_sign_lead result ≡ reader.sign_lead place (sign_codes sign) }
{
    match listed_sign(sign) {
        Some(SignLead::Before(_)) if place > 7 => None,
        listed => listed,
    }
}

/// What a word of the grammar begins, if it begins something.
#[tactic(auto, unfolding(crate::specs::Leads::seen_word_lead))]
fn listed_word(text: &[u8]) -> Option<WordLead>
    ensures { option_map seen_word_lead result ≡ lookup text.now reader.leading_words }
{
    if text == b"sizeof".as_slice() {
        Some(WordLead::Sized)
    } else if text == b"max".as_slice() {
        Some(WordLead::Extremal(Extreme::Max))
    } else if text == b"min".as_slice() {
        Some(WordLead::Extremal(Extreme::Min))
    } else if text == b"abs".as_slice() {
        Some(WordLead::Absolute)
    } else {
        None
    }
}

/// What a word begins, if it begins something.
#[tactic(auto, unfolding(crate::specs::Leads::seen_word_lead, c_readers::specs::ExpressionReader::word_lead))]
pub(crate) fn word_lead(scope: &CScope, text: &[u8]) -> Option<WordLead>
    ensures { option_map seen_word_lead result ≡ reader.word_lead (scope_of scope.now) text.now }
{
    match listed_word(text) {
        Some(lead) => Some(lead),
        None => if scope.is_known(text) {
            Some(WordLead::Named)
        } else {
            None
        },
    }
}

/// The type of a cast that begins with a word, if one does.
fn listed_cast(text: &[u8]) -> Option<CastType>
    ensures { result ≡ lookup text.now reader.casts }
{
    if text == b"char".as_slice() {
        Some(CastType::Chars)
    } else if text == b"unsigned".as_slice() {
        Some(CastType::UnsignedChars)
    } else if text == b"integer".as_slice() {
        Some(CastType::Integers)
    } else if text == b"logical".as_slice() {
        Some(CastType::Logicals)
    } else if text == b"ftnlen".as_slice() {
        Some(CastType::Length)
    } else if text == b"ftnint".as_slice() {
        Some(CastType::Number)
    } else if text == b"S_fp".as_slice() {
        Some(CastType::Function(FunctionType::Subroutine))
    } else if text == b"I_fp".as_slice() {
        Some(CastType::Function(FunctionType::Integer))
    } else if text == b"L_fp".as_slice() {
        Some(CastType::Function(FunctionType::Logical))
    } else if text == b"U_fp".as_slice() {
        Some(CastType::Function(FunctionType::Unknown))
    } else {
        None
    }
}

/// The type of a cast that begins with a word, where the place takes one.
#[tactic(auto, unfolding(c_readers::specs::ExpressionReader::cast_of))]
pub(crate) fn cast_of(place: u8, text: &[u8]) -> Option<CastType>
    ensures { result ≡ reader.cast_of place text.now }
{
    if place <= 7 { listed_cast(text) } else { None }
}
