//! The place of a text in another (ANSI X3.9-1978, 15.10).

ghost use Rattle.std.specs.Prelude.{◌≡◌, ◌≤◌, ◌+◌, pos, length};
ghost use Rattle.c_tree.specs.LibraryTexts as texts;

use memchr::memmem;

/// INDEX: the first place, from 1, at which a text stands in another, or 0.
pub fn index_of(text: &[u8], wanted: &[u8]) -> usize
    ensures place { pos result ≡ texts.index_of text.now wanted.now }
    ensures within { result ≤ length text.now + 1 }
{
    match memmem::find(text, wanted) {
        Some(place) => place + 1,
        None => 0,
    }
}
