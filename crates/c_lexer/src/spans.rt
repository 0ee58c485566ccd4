//! How far words, white space and comments go, and the line feeds in them (C89, 3.1, 3.1.2, 3.1.9 and 3.8.2).

ghost use Rattle.std.specs.Prelude.{◌≡◌, ◌<◌, ◌≤◌, ◌&&◌, nat_eq, length, drop, option_map, IfSome};
ghost use Rattle.std.specs.List.{prefix_len};
ghost use Rattle.c_tree.specs.Tokens.{begins_with, is_word_byte, is_blank, ends_line, to_comment_end, include_at, line_feeds, last_line};
ghost use Rattle.c_lexer.specs.Parts.{cut_at};

use crate::classes::{is_blank, is_word_byte};
use memchr::memchr_iter;

/// The line that is built in.
const INCLUDE_LINE: &[u8] = b"#include \"f2c.h\"";

/// Whether a text begins with a byte.
pub(crate) fn begins_with(byte: u8, text: &[u8]) -> bool
    ensures { result ≡ begins_with (nat_eq byte) text.now }
{
    match text {
        [first, ..] => *first == byte,
        [] => false,
    }
}

/// How many letters, digits and underscores a text begins with.
pub(crate) fn word_len(text: &[u8]) -> usize
    ensures value { result ≡ prefix_len is_word_byte text.now }
    ensures within { result ≤ length text.now }
{
    let mut passed = 0;
    let mut rest = text;
    while let [first, behind @ ..] = rest {
        if !is_word_byte(*first) {
            return passed;
        }
        passed += 1;
        rest = behind;
    }
    passed
}

/// How many bytes of white space a text begins with on its first line.
pub(crate) fn blanks_len(text: &[u8]) -> usize
    ensures value { result ≡ prefix_len is_blank text.now }
    ensures within { result ≤ length text.now }
{
    let mut passed = 0;
    let mut rest = text;
    while let [first, behind @ ..] = rest {
        if !is_blank(*first) {
            return passed;
        }
        passed += 1;
        rest = behind;
    }
    passed
}

/// Whether a line ends where a text begins.
fn ends_line(text: &[u8]) -> bool
    ensures { result ≡ ends_line text.now }
{
    match text {
        [first, ..] => *first == b'\n',
        [] => true,
    }
}

/// How many bytes of a text the include line takes, with the blanks behind it up to the end of its line.
#[tactic(auto, using(crate::proofs::PartLemmas::no_include))]
pub(crate) fn include_len(text: &[u8]) -> Option<usize>
    ensures value { option_map (λ len. drop len text.now) result ≡ include_at text.now }
    ensures some { IfSome result (λ len. 0 < len) }
    ensures within { IfSome result (λ len. len ≤ length text.now) }
{
    if !text.starts_with(INCLUDE_LINE) {
        return None;
    }
    let behind = &text[INCLUDE_LINE.len()..];
    let blanks = blanks_len(behind);
    if ends_line(&behind[blanks..]) {
        Some(INCLUDE_LINE.len() + blanks)
    } else {
        None
    }
}

/// Whether a byte and the text behind it begin with the end of a comment.
fn ends_comment(first: u8, behind: &[u8]) -> bool
    ensures { result ≡ (nat_eq first 42 && begins_with (nat_eq 47) behind.now) }
{
    first == b'*' && begins_with(b'/', behind)
}

/// How many bytes of a text the rest of a comment takes, up to the first end of one.
#[tactic(auto, using(crate::proofs::PartLemmas::comment_begins, crate::proofs::PartLemmas::comment_unended))]
pub(crate) fn comment_end(text: &[u8]) -> Option<usize>
    ensures value { option_map (cut_at text.now) result ≡ to_comment_end text.now }
    ensures within { IfSome result (λ len. len ≤ length text.now) }
{
    let mut passed = 0;
    let mut rest = text;
    while let [first, behind @ ..] = rest {
        if ends_comment(*first, behind) {
            return Some(passed + 2);
        }
        passed += 1;
        rest = behind;
    }
    None
}

/// How many line feeds a text has.
pub(crate) fn line_feeds(text: &[u8]) -> usize
    ensures value { result ≡ line_feeds text.now }
    ensures within { result ≤ length text.now }
{
    memchr_iter(b'\n', text).count()
}

/// The last line of a text, from 1: a line feed at the end of the text begins no other line.
pub fn last_line(bytes: &[u8]) -> usize
    ensures { result ≡ last_line bytes.now }
{
    match bytes {
        [before @ .., _] => line_feeds(before) + 1,
        [] => 1,
    }
}
