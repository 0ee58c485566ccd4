//! Places in a record or a field.
ghost use Rattle.std.specs.Prelude.{◌≡◌, ◌+◌, ◌-◌, ◌≤◌, ◌++◌, length, take, drop, replicate};

/// Copies the piece into the columns from `at` on.
pub fn place(piece: &[u8], line: &mut [u8], at: usize)
    requires { at + length piece.now ≤ length line.old }
    ensures { line.new ≡ take at line.old ++ piece.now ++ drop (at + length piece.now) line.old }
{
    line[at..at + piece.len()].copy_from_slice(piece);
}

/// Writes the character in the columns from `from` up to `to`.
pub fn fill(line: &mut [u8], from: usize, to: usize, character: u8)
    requires order { from ≤ to }
    requires within { to ≤ length line.old }
    ensures { line.new ≡ take from line.old ++ replicate (to - from) character ++ drop to line.old }
{
    line[from..to].fill(character);
}
