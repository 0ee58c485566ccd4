//! Signs (C89, 3.1.5 and 3.1.6).

ghost use Rattle.std.specs.Prelude.{◌≡◌, ◌≢◌, ◌∷◌, []};
ghost use Rattle.c_lexer.specs.Parts.{IsSign};

use crate::token::CSign;

/// The sign of a byte that is written twice.
#[tactic(auto, using(crate::proofs::SignLemmas::twice, crate::proofs::SignLemmas::not_twice), unfolding(crate::specs::SeenTokens::sign_codes))]
fn doubled_sign(byte: u8) -> Option<CSign>
    ensures { IsSign (byte ∷ byte ∷ []) result }
{
    match byte {
        b'+' => Some(CSign::Increment),
        b'-' => Some(CSign::Decrement),
        b'|' => Some(CSign::Or),
        b'&' => Some(CSign::And),
        b'=' => Some(CSign::Equal),
        _ => None,
    }
}

/// The sign of a byte with `=` behind it, where the byte is another one.
#[tactic(auto, using(crate::proofs::SignLemmas::before_equals, crate::proofs::SignLemmas::not_before_equals), unfolding(crate::specs::SeenTokens::sign_codes))]
fn sign_before_equals(byte: u8) -> Option<CSign>
    requires { byte ≢ 61 }
    ensures { IsSign (byte ∷ 61 ∷ []) result }
{
    match byte {
        b'+' => Some(CSign::AddAssign),
        b'!' => Some(CSign::Unequal),
        b'<' => Some(CSign::LessOrEqual),
        b'>' => Some(CSign::GreaterOrEqual),
        _ => None,
    }
}

/// The sign of two bytes.
#[tactic(auto, using(crate::proofs::SignLemmas::not_two))]
pub(crate) fn sign_of_two(first: u8, second: u8) -> Option<CSign>
    ensures { IsSign (first ∷ second ∷ []) result }
{
    if first == second {
        doubled_sign(first)
    } else if second == b'=' {
        sign_before_equals(first)
    } else {
        None
    }
}

/// The sign of one byte.
#[tactic(auto, using(crate::proofs::SignLemmas::one_byte, crate::proofs::SignLemmas::not_one), unfolding(crate::specs::SeenTokens::sign_codes))]
pub(crate) fn sign_of_one(byte: u8) -> Option<CSign>
    ensures { IsSign (byte ∷ []) result }
{
    match byte {
        b'(' => Some(CSign::OpenParenthesis),
        b')' => Some(CSign::CloseParenthesis),
        b'[' => Some(CSign::OpenBracket),
        b']' => Some(CSign::CloseBracket),
        b'{' => Some(CSign::OpenBrace),
        b'}' => Some(CSign::CloseBrace),
        b',' => Some(CSign::Comma),
        b';' => Some(CSign::Semicolon),
        b':' => Some(CSign::Colon),
        b'?' => Some(CSign::Question),
        b'.' => Some(CSign::Period),
        b'=' => Some(CSign::Assign),
        b'+' => Some(CSign::Plus),
        b'-' => Some(CSign::Minus),
        b'*' => Some(CSign::Star),
        b'/' => Some(CSign::Slash),
        b'%' => Some(CSign::Percent),
        b'&' => Some(CSign::Ampersand),
        b'!' => Some(CSign::Exclamation),
        b'<' => Some(CSign::Less),
        b'>' => Some(CSign::Greater),
        _ => None,
    }
}
