//! The order of texts by the values of their bytes, the shorter one with blanks behind it (ANSI X3.9-1978, 6.3.5 and 15.10).

ghost use Rattle.std.specs.Prelude.{◌≡◌};
ghost use Rattle.c_tree.specs.LibraryTexts as texts;

use std::cmp::Ordering;

/// The order of a text and as many blanks: -1, 0 or 1.
#[tactic(auto, using(crate::proofs::OrderLemmas::blank_laws))]
fn order_to_blanks(text: &[u8]) -> i32
    ensures { result ≡ texts.against_blanks text.now }
{
    for byte in text {
        if *byte != b' ' {
            return if *byte < b' ' { -1 } else { 1 };
        }
    }
    0
}

/// The order of two texts: -1 where the first is before the second, 0 where they are equal, else 1.
pub fn compare_texts(left: &[u8], right: &[u8]) -> i32
    ensures { result ≡ texts.comparison left.now right.now }
{
    let common = left.len().min(right.len());
    match left[..common].cmp(&right[..common]) {
        Ordering::Less => -1,
        Ordering::Greater => 1,
        Ordering::Equal if common < left.len() => order_to_blanks(&left[common..]),
        Ordering::Equal => -order_to_blanks(&right[common..]),
    }
}

/// LGE: 1 where the first text is equal to the second or behind it, else 0.
pub fn lexically_not_below(left: &[u8], right: &[u8]) -> i32
    ensures { result ≡ texts.not_below left.now right.now }
{
    i32::from(0 <= compare_texts(left, right))
}

/// LGT: 1 where the first text is behind the second, else 0.
pub fn lexically_above(left: &[u8], right: &[u8]) -> i32
    ensures { result ≡ texts.above left.now right.now }
{
    i32::from(0 < compare_texts(left, right))
}

/// LLE: 1 where the first text is equal to the second or before it, else 0.
pub fn lexically_not_above(left: &[u8], right: &[u8]) -> i32
    ensures { result ≡ texts.not_above left.now right.now }
{
    i32::from(compare_texts(left, right) <= 0)
}

/// LLT: 1 where the first text is before the second, else 0.
pub fn lexically_below(left: &[u8], right: &[u8]) -> i32
    ensures { result ≡ texts.below left.now right.now }
{
    i32::from(compare_texts(left, right) < 0)
}
