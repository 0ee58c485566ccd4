//! The bit functions over 32 bits. MIL-STD-1753.

ghost use Rattle.std.specs.Prelude.{◌≡◌, ◌<◌, pos, negsuc, ◌+◌};
ghost use Rattle.run_state.specs.Bits as bits;

/// The bits moved to the left.
#[tactic(auto, using(crate::proofs::BitLemmas::left_laws))]
fn shifted_left(number: i32, count: u32) -> Option<i32>
    ensures { result ≡ bits.shifted number (pos count) }
{
    if count == 32 {
        Some(0)
    } else {
        number.checked_shl(count)
    }
}

/// The bits moved to the right by one place more than are told.
#[tactic(auto, using(crate::proofs::BitLemmas::right_laws))]
fn shifted_right(number: i32, less_one: u32) -> Option<i32>
    ensures { result ≡ bits.shifted number (negsuc less_one) }
{
    if less_one < 32 {
        let wide = number.cast_unsigned() as u64;
        Some(((wide >> (less_one + 1)) as u32).cast_signed())
    } else {
        None
    }
}

/// The bits moved to the left by a positive count and to the right by a negative one, from -32 to 32; zeros come in.
pub(crate) fn shifted(number: i32, count: i32) -> Option<i32>
    ensures { result ≡ bits.shifted number count }
{
    let size = count.unsigned_abs();
    if count < 0 {
        shifted_right(number, size.saturating_sub(1))
    } else {
        shifted_left(number, size)
    }
}

/// The number in which one bit is set, by its place from 0 to 31.
#[tactic(auto, using(crate::proofs::BitLemmas::place_laws))]
fn bit_in(place: u32) -> Option<i32>
    ensures { result ≡ bits.bit_at (pos place) }
{
    1i32.checked_shl(place)
}

/// The number in which one bit is set, by its place from 0 to 31; none at another place.
fn bit_at(place: i32) -> Option<i32>
    ensures { result ≡ bits.bit_at place }
{
    let size = place.unsigned_abs();
    if place < 0 { None } else { bit_in(size) }
}

/// Whether a bit is set, by its place from 0 to 31.
#[tactic(auto, using(crate::proofs::BitLemmas::test_laws))]
fn has_bit_in(number: i32, place: u32) -> Option<bool>
    ensures { result ≡ bits.has_bit number (pos place) }
{
    if place < 32 {
        Some((number.cast_unsigned() >> place) % 2 == 1)
    } else {
        None
    }
}

/// Whether a bit is set, by its place from 0 to 31; none at another place.
pub(crate) fn has_bit(number: i32, place: i32) -> Option<bool>
    ensures { result ≡ bits.has_bit number place }
{
    let size = place.unsigned_abs();
    if place < 0 {
        None
    } else {
        has_bit_in(number, size)
    }
}

/// A number with one bit set.
#[tactic(auto, unfolding(run_state::specs::Bits::with_bit, run_state::specs::Bits::inclusive_or))]
pub(crate) fn with_bit(number: i32, place: i32) -> Option<i32>
    ensures { result ≡ bits.with_bit number (bits.bit_at place) }
{
    match bit_at(place) {
        Some(bit) => Some(number | bit),
        None => None,
    }
}

/// A number with one bit cleared.
#[tactic(auto, unfolding(run_state::specs::Bits::without_bit, run_state::specs::Bits::logical_product, run_state::specs::Bits::complement))]
pub(crate) fn without_bit(number: i32, place: i32) -> Option<i32>
    ensures { result ≡ bits.without_bit number (bits.bit_at place) }
{
    match bit_at(place) {
        Some(bit) => Some(number & !bit),
        None => None,
    }
}
