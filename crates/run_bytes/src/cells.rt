//! What an object of bytes holds for an access, and what an access stores in it (C89, 3.1.2.5 and 3.3.2). Each byte has a mark that
//! tells whether it is set.

ghost use Rattle.std.specs.Prelude.{◌≡◌, ◌≤◌, ◌+◌, ◌∷◌, [], length, IfOk, SomeIff};
ghost use Rattle.std.specs.List.{list_all};
ghost use Rattle.c_tree.specs.Objects as objects;
ghost use Rattle.run_bytes.specs.Answers.{answered};
ghost use Rattle.run_bytes.specs.Cells.{marked, Changes};

use c_tree::outcome::CFault;

/// Where so many bytes from an offset on end, if all of them are among so many.
fn end_within(offset: usize, count: usize, len: usize) -> Option<usize>
    ensures { SomeIff result (offset + count ≤ len) (offset + count) }
{
    match offset.checked_add(count) {
        Some(end) if end <= len => Some(end),
        _ => None,
    }
}

/// Whether each byte is set.
fn all_set(marks: &[bool]) -> bool
    ensures { result ≡ list_all (λ mark. mark) marks.now }
{
    marks.iter().all(|mark| *mark)
}

/// So many bytes from an offset on.
#[tactic(auto, using(crate::proofs::CellLemmas::reading_laws))]
pub(crate) fn bytes_at<'a>(
    bytes: &'a [u8],
    marks: &[bool],
    offset: usize,
    count: usize,
) -> Result<&'a [u8], CFault>
    requires { length marks.now ≡ length bytes.now }
    ensures found { answered (λ found. found.now) result ≡ objects.bytes_at offset count (marked bytes.now marks.now) }
    ensures size { IfOk result (λ found. length found.now ≡ count) }
{
    match end_within(offset, count, bytes.len()) {
        Some(end) if all_set(&marks[offset..end]) => Ok(&bytes[offset..end]),
        Some(_) => Err(CFault::Unset),
        None => Err(CFault::Outside),
    }
}

/// The number in the four bytes from an offset on, which is a multiple of four.
pub(crate) fn number_at(bytes: &[u8], marks: &[bool], offset: usize) -> Result<i32, CFault>
    requires { length marks.now ≡ length bytes.now }
    ensures { answered (λ number. number) result ≡ objects.number_at offset (marked bytes.now marks.now) }
{
    if offset % 4 != 0 {
        return Err(CFault::Outside);
    }
    match bytes_at(bytes, marks, offset, 4)? {
        [first, second, third, last] => Ok(i32::from_le_bytes([*first, *second, *third, *last])),
        _ => unreachable!(),
    }
}

/// The byte at an offset.
pub(crate) fn byte_at(bytes: &[u8], marks: &[bool], offset: usize) -> Result<u8, CFault>
    requires { length marks.now ≡ length bytes.now }
    ensures { answered (λ byte. byte ∷ []) result ≡ objects.bytes_at offset 1 (marked bytes.now marks.now) }
{
    match bytes_at(bytes, marks, offset, 1)? {
        [byte] => Ok(*byte),
        _ => unreachable!(),
    }
}

/// Bytes in place of those from an offset on.
pub(crate) fn put_bytes(
    bytes: &mut [u8],
    marks: &mut [bool],
    offset: usize,
    new: &[u8],
) -> Result<(), CFault>
    requires { length marks.old ≡ length bytes.old }
    ensures { Changes (objects.with_bytes offset new.now) bytes.old marks.old bytes.new marks.new result }
{
    match end_within(offset, new.len(), bytes.len()) {
        Some(end) => {
            bytes[offset..end].copy_from_slice(new);
            marks[offset..end].fill(true);
            Ok(())
        }
        None => Err(CFault::Outside),
    }
}

/// A number in the four bytes from an offset on, which is a multiple of four.
pub(crate) fn put_number(
    bytes: &mut [u8],
    marks: &mut [bool],
    offset: usize,
    number: i32,
) -> Result<(), CFault>
    requires { length marks.old ≡ length bytes.old }
    ensures { Changes (objects.with_number offset number) bytes.old marks.old bytes.new marks.new result }
{
    if offset % 4 != 0 {
        return Err(CFault::Outside);
    }
    put_bytes(bytes, marks, offset, &number.to_le_bytes())
}

/// The low eight bits of a number in the byte at an offset.
pub(crate) fn put_byte(
    bytes: &mut [u8],
    marks: &mut [bool],
    offset: usize,
    number: i32,
) -> Result<(), CFault>
    requires { length marks.old ≡ length bytes.old }
    ensures { Changes (objects.with_byte offset number) bytes.old marks.old bytes.new marks.new result }
{
    let low = (number.cast_unsigned() % 256) as u8;
    put_bytes(bytes, marks, offset, &[low])
}
