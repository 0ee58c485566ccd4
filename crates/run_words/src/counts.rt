//! The greatest number of steps, as a word gives it.

ghost use Rattle.std.specs.Prelude.{◌≡◌, true, min};
ghost use Rattle.std.specs.List.{list_all};
ghost use Rattle.std.specs.Char.{is_ascii_digit};
ghost use Rattle.std.specs.Str.Parse.{digits_value};
ghost use Rattle.run_words.specs.RunWords as words_of;

/// One more than the greatest limit.
const PAST_GREATEST: u64 = 1_000_000_000_001;

/// The most digits of a limit.
const MOST_DIGITS: usize = 13;

/// Whether all bytes are digits.
fn are_digits(word: &[u8]) -> bool
    ensures { result ≡ list_all is_ascii_digit word.now }
{
    word.iter().all(|byte| byte.is_ascii_digit())
}

/// The value of digits; past the greatest limit it is one more than that.
#[tactic(auto, using(crate::proofs::CountLemmas::digit_at, crate::proofs::CountLemmas::digit_bounds, crate::proofs::CountLemmas::one_digit_more))]
fn capped_value(digits: &[u8]) -> u64
    requires { list_all is_ascii_digit digits.now ≡ true }
    ensures { result ≡ min (digits_value 10 digits.now) 1000000000001 }
{
    let mut value = 0;
    for digit in digits {
        value = (value * 10 + u64::from(*digit - b'0')).min(PAST_GREATEST);
    }
    value
}

/// The limit that a word gives: 1 to 13 digits, of a value from 1 to 1,000,000,000,000.
#[tactic(auto, using(crate::proofs::CountLemmas::no_digits, crate::proofs::CountLemmas::too_long, crate::proofs::CountLemmas::not_digits, crate::proofs::CountLemmas::no_limit, crate::proofs::CountLemmas::limit_is))]
pub(crate) fn step_limit(word: &[u8]) -> Option<u64>
    ensures { result ≡ words_of.step_limit word.now }
{
    if word.len() == 0 || word.len() > MOST_DIGITS || !are_digits(word) {
        return None;
    }
    let value = capped_value(word);
    if value > 0 && value < PAST_GREATEST {
        Some(value)
    } else {
        None
    }
}
