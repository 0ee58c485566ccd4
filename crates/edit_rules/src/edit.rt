//! Values into fields: the edit descriptors I, L and A on output (ANSI X3.9-1978, sections 13.5.9 to 13.5.11).
ghost use Rattle.std.specs.Prelude.{◌≡◌, ◌<◌, ◌++◌, length};
ghost use Rattle.edit_meaning.specs.EditedFields.{right_in, sign_of, with_zeros, int_field, logical_field, text_field};

use crate::columns::{fill, place};
use itoa::Buffer;

/// Writes an integer right in the field, with at least `least` digits, one where nothing is said. A plus sign is written under `plus`.
///
/// `into` is the field, of `width` columns. Asterisks fill a field that is too narrow; a zero with no digits leaves it blank.
#[tactic(auto, unfolding(edit_meaning::specs::EditedFields::int_field))]
pub fn edit_int(value: i32, width: usize, least: Option<usize>, plus: bool, into: &mut [u8])
    requires { length into.old ≡ width }
    ensures { into.new ≡ int_field value width least plus }
{
    let mut buffer = Buffer::new();
    let digits = buffer.format(value.unsigned_abs()).as_bytes();
    let least = least.unwrap_or(1);
    if value == 0 && least == 0 {
        fill(into, 0, width, b' ');
        return;
    }
    put_number(signed(value, plus), least, digits, into)
}

/// Writes T or F at the right end of the field, behind blanks.
#[tactic(auto, unfolding(edit_meaning::specs::EditedFields::logical_field))]
pub fn edit_logical(value: bool, into: &mut [u8])
    requires { 0 < length into.old }
    ensures { into.new ≡ logical_field value (length into.old) }
{
    let last = into.len() - 1;
    fill(into, 0, last, b' ');
    into[last] = if value { b'T' } else { b'F' };
}

/// Writes a text right in the field: blanks before a shorter one, the leftmost characters of a longer one.
#[tactic(auto, unfolding(edit_meaning::specs::EditedFields::text_field))]
pub fn edit_text(value: &[u8], into: &mut [u8])
    ensures { into.new ≡ text_field value.now (length into.old) }
{
    let width = into.len();
    if value.len() < width {
        let blanks = width - value.len();
        fill(into, 0, blanks, b' ');
        place(value, into, blanks);
    } else {
        place(&value[..width], into, 0);
    }
}

/// The sign of a number, where one is written.
fn signed(value: i32, plus: bool) -> &'static [u8]
    ensures { result.now ≡ sign_of value plus }
{
    if value < 0 {
        b"-"
    } else if plus {
        b"+"
    } else {
        b""
    }
}

/// A sign and digits, right in the field.
fn put_number(sign: &[u8], least: usize, digits: &[u8], into: &mut [u8])
    ensures { into.new ≡ right_in (length into.old) (sign.now ++ with_zeros least digits.now) }
{
    let width = into.len();
    let needed = digits.len().max(least);
    if needed > width || sign.len() > width - needed {
        fill(into, 0, width, b'*');
        return;
    }
    let start = width - needed - sign.len();
    fill(into, 0, start, b' ');
    place(sign, into, start);
    fill(into, start + sign.len(), width - digits.len(), b'0');
    place(digits, into, width - digits.len());
}
