//! Columns of a line (ANSI X3.9-1978, section 13.5.3).

ghost use Rattle.std.specs.Prelude.{◌≡◌, ◌+◌, ◌-◌, ◌≤◌, ◌<◌, ◌++◌, length, take, drop, replicate};
ghost use Rattle.edit_rules.specs.edit_meaning.EditedRecords.{written_at};

/// Copies a text into the columns behind so many.
fn place(line: &mut [u8], before: usize, text: &[u8])
    requires { before + length text.now ≤ length line.old }
    ensures { line.new ≡ take before line.old ++ text.now ++ drop (before + length text.now) line.old }
{
    line[before..before + text.len()].copy_from_slice(text);
}

/// Blanks in the columns from behind so many to before others.
fn blank(line: &mut [u8], from: usize, to: usize)
    requires order { from ≤ to }
    requires within { to ≤ length line.old }
    ensures { line.new ≡ take from line.old ++ replicate (to - from) 32 ++ drop to line.old }
{
    line[from..to].fill(b' ');
}

/// Writes a text into the columns behind so many, and blanks into a gap before it. The line is in use up to the last column written.
pub(crate) fn write_at(line: &mut [u8], used: usize, before: usize, text: &[u8]) -> usize
    requires used { used ≤ length line.old }
    requires within { before + length text.now ≤ length line.old }
    ensures used { result ≤ length line.old }
    ensures written { take result line.new ≡ written_at before text.now (take used line.old) }
{
    if text.is_empty() {
        return used;
    }
    if used < before {
        blank(line, used, before);
        place(line, before, text);
        before + text.len()
    } else {
        place(line, before, text);
        used.max(before + text.len())
    }
}
