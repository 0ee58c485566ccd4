//! Where lines end in bytes.

ghost use Rattle.std.specs.Prelude.{◌≡◌};
ghost use Rattle.host_lines.specs.Lines.{is_end, ends_in, inside_after, IsFirstEnd, IsLastEnd};

/// Where the first line feed stands.
pub(crate) fn first_end(bytes: &[u8]) -> Option<usize>
    ensures { IsFirstEnd bytes.now result }
{
    for (number, byte) in bytes.iter().enumerate() {
        if *byte == b'\n' {
            return Some(number);
        }
    }
    None
}

/// Where the last line feed stands.
pub(crate) fn last_end(bytes: &[u8]) -> Option<usize>
    ensures { IsLastEnd bytes.now result }
{
    let mut found = None;
    for (number, byte) in bytes.iter().enumerate() {
        if *byte == b'\n' {
            found = Some(number);
        }
    }
    found
}

/// How many line feeds there are.
pub(crate) fn ends_in(bytes: &[u8]) -> usize
    ensures { result ≡ ends_in bytes.now }
{
    let mut ends = 0;
    for byte in bytes {
        if *byte == b'\n' {
            ends += 1;
        }
    }
    ends
}

/// Whether bytes end inside a line, where what stood before them did or did not.
pub(crate) fn inside_after(was_inside: bool, bytes: &[u8]) -> bool
    ensures { result ≡ inside_after was_inside bytes.now }
{
    let mut is_inside = was_inside;
    for byte in bytes {
        is_inside = *byte != b'\n';
    }
    is_inside
}
