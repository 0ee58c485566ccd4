//! The lines of a text. Section 3.2.

ghost use Rattle.std.specs.Prelude.{◌≡◌, ◌<◌, ◌≤◌, ◌∷◌, length, take, drop};
ghost use Rattle.fortran_text.specs.Lines.{lines, without_end};
ghost use Rattle.cards.specs.Passes.{ends_with};

use memchr::memchr;

/// The length in bytes of the first line of a text that is not empty, with the line feed that ends it.
pub fn line_length(text: &[u8]) -> usize
    requires { 0 < length text.now }
    ensures some { 0 < result }
    ensures within { result ≤ length text.now }
    ensures first { lines text.now ≡ take result text.now ∷ lines (drop result text.now) }
{
    match memchr(b'\n', text) {
        Some(place) => place + 1,
        None => text.len(),
    }
}

/// Whether a byte ends a text.
pub(crate) fn ends_with(text: &[u8], byte: u8) -> bool
    ensures { result ≡ ends_with byte text.now }
{
    match text {
        [.., last] => *last == byte,
        [] => false,
    }
}

/// A line without its end, which is a line feed, or a carriage return and a line feed.
pub(crate) fn without_end(line: &[u8]) -> &[u8]
    ensures { result.now ≡ without_end line.now }
{
    if !ends_with(line, b'\n') {
        return line;
    }
    let front = &line[..line.len() - 1];
    if ends_with(front, b'\r') {
        &front[..front.len() - 1]
    } else {
        front
    }
}
