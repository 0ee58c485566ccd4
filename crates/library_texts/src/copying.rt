//! Texts into others: assignment and concatenation (ANSI X3.9-1978, 6.2.2.2 and 10.4).

ghost use Rattle.std.specs.Prelude.{◌≡◌, ◌≤◌, ◌++◌, ℕ, List, length, take};
ghost use Rattle.c_tree.specs.LibraryArguments.{fitted};
ghost use Rattle.library_texts.specs.Gathered.{Gathers};

/// A text into another, with blanks behind it or cut to its length (10.4).
pub fn copy_text(target: &mut [u8], source: &[u8])
    ensures { target.new ≡ fitted (length target.old) source.now }
{
    let kept = source.len().min(target.len());
    let (text, rest) = target.split_at_mut(kept);
    text.copy_from_slice(&source[..kept]);
    rest.fill(b' ');
}

/// A piece of a concatenation (6.2.2.2) behind those that `used` bytes of a buffer hold, as far as it fits. It gives how many bytes
/// they have then; a buffer of which no bytes are used holds the empty text.
pub fn append_piece(buffer: &mut [u8], used: usize, piece: &[u8]) -> usize
    requires { used ≤ length buffer.old }
    ensures within { result ≤ length buffer.old }
    ensures gathered { (text : List ℕ) → Gathers buffer.old used text → Gathers buffer.new result (text ++ piece.now) }
{
    let kept = piece.len().min(buffer.len() - used);
    buffer[used..used + kept].copy_from_slice(&piece[..kept]);
    used + kept
}

/// Blanks behind the text that the first `used` bytes of a buffer hold (10.4): its first `size` bytes are the text then, with blanks
/// behind it or cut.
pub fn pad_gathered(buffer: &mut [u8], used: usize, size: usize)
    requires used { used ≤ length buffer.old }
    requires size { size ≤ length buffer.old }
    ensures { (text : List ℕ) → Gathers buffer.old used text → take size buffer.new ≡ fitted size text }
{
    if used < size {
        buffer[used..size].fill(b' ');
    }
}
