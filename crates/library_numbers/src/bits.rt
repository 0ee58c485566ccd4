//! The bit functions over the 32 bits of a number, in two's complement (MIL-STD-1753).

ghost use Rattle.std.specs.Prelude.{◌≡◌, ◌≤◌, ◌/◌, ◌^◌};
ghost use Rattle.std.specs.Int.{w32, cast_signed, cast_unsigned, int_shl};
ghost use Rattle.run_state.specs.Bits as bits;
ghost use Rattle.c_tree.specs.LibraryNumbers as numbers;
ghost use Rattle.library_numbers.specs.Answers.{answered};

use c_tree::outcome::CFault;

/// IOR: each bit that either number has.
#[tactic(auto, unfolding(run_state::specs::Bits::inclusive_or))]
pub fn either_bit(left: i32, right: i32) -> i32
    ensures { Ok result ≡ numbers.either_bit left right }
{
    left | right
}

/// IAND: each bit that both numbers have.
#[tactic(auto, unfolding(run_state::specs::Bits::logical_product))]
pub fn both_bits(left: i32, right: i32) -> i32
    ensures { Ok result ≡ numbers.both_bits left right }
{
    left & right
}

/// IEOR: each bit that one of the numbers has, and not both.
#[tactic(auto, unfolding(run_state::specs::Bits::exclusive_or))]
pub fn one_bit(left: i32, right: i32) -> i32
    ensures { Ok result ≡ numbers.one_bit left right }
{
    left ^ right
}

/// NOT: each bit that the number does not have.
#[tactic(auto, unfolding(run_state::specs::Bits::complement))]
pub fn complement(number: i32) -> i32
    ensures { result ≡ bits.complement number }
{
    !number
}

/// The bits moved to the left; zeros come in.
fn shifted_left(number: i32, count: u32) -> i32
    requires { count ≤ 32 }
    ensures { result ≡ int_shl w32 number count }
{
    let wide = (number.cast_unsigned() as u64) << count;
    ((wide & 0xffff_ffff) as u32).cast_signed()
}

/// The bits moved to the right; zeros come in.
fn shifted_right(number: i32, count: u32) -> i32
    requires { count ≤ 32 }
    ensures { result ≡ cast_signed w32 (cast_unsigned w32 number / 2 ^ count) }
{
    let wide = number.cast_unsigned() as u64;
    ((wide >> count) as u32).cast_signed()
}

/// ISHFT: the bits moved to the left by a positive count and to the right by a negative one; zeros come in.
///
/// # Errors
/// `Library` for a count below -32 or above 32.
pub fn shifted_bits(number: i32, count: i32) -> Result<i32, CFault>
    ensures { answered result ≡ numbers.shifted_bits number count }
{
    match count {
        0..=32 => Ok(shifted_left(number, count.unsigned_abs())),
        -32..=-1 => Ok(shifted_right(number, count.unsigned_abs())),
        _ => Err(CFault::Library),
    }
}

/// BTEST: 1 where the bit is set, else 0. The place is from 0, the lowest bit, to 31.
///
/// # Errors
/// `Library` for another place.
pub fn bit_tested(number: i32, place: i32) -> Result<i32, CFault>
    ensures { answered result ≡ numbers.bit_tested number place }
{
    match place {
        0..=31 => Ok(((number.cast_unsigned() >> place.unsigned_abs()) % 2).cast_signed()),
        _ => Err(CFault::Library),
    }
}

/// IBSET: the number with a bit set. The place is from 0, the lowest bit, to 31.
///
/// # Errors
/// `Library` for another place.
pub fn bit_set(number: i32, place: i32) -> Result<i32, CFault>
    ensures { answered result ≡ numbers.bit_set number place }
{
    match place {
        0..=31 => Ok(number | 1 << place.unsigned_abs()),
        _ => Err(CFault::Library),
    }
}

/// IBCLR: the number with a bit cleared. The place is from 0, the lowest bit, to 31.
///
/// # Errors
/// `Library` for another place.
pub fn bit_cleared(number: i32, place: i32) -> Result<i32, CFault>
    ensures { answered result ≡ numbers.bit_cleared number place }
{
    match place {
        0..=31 => Ok(number & !(1 << place.unsigned_abs())),
        _ => Err(CFault::Library),
    }
}
