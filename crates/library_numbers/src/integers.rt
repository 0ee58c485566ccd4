//! Powers, SIGN and DIM (ANSI X3.9-1978, 6.1.2.1, 6.6 and 15.10).

ghost use Rattle.std.specs.Prelude.{◌≡◌, ◌<◌, ◌-◌, pos, negsuc};
ghost use Rattle.c_tree.specs.LibraryNumbers as numbers;
ghost use Rattle.library_numbers.specs.Answers.{answered};

use c_tree::outcome::CFault;

/// A power of an exponent that is not negative, in some sixty products at most.
fn whole_power(base: i32, exponent: u32) -> Result<i32, CFault>
    ensures { answered result ≡ numbers.power base (pos exponent) }
{
    base.checked_pow(exponent).ok_or(CFault::Overflow)
}

/// 1 divided by a power, cut towards zero.
fn inverse_power(base: i32, exponent: u32) -> Result<i32, CFault>
    requires { 0 < exponent }
    ensures { answered result ≡ numbers.power base (negsuc (exponent - 1)) }
{
    match base {
        0 => Err(CFault::ZeroDivide),
        1 => Ok(1),
        -1 => Ok(if exponent % 2 == 0 { 1 } else { -1 }),
        _ => Ok(0),
    }
}

/// A power (6.1.2.1 and 6.6). Of an exponent below 0 it is 1 divided by the power, cut towards zero.
///
/// # Errors
/// `Overflow` for a result outside 32 bits, `ZeroDivide` for 0 and an exponent below 0.
pub fn power(base: i32, exponent: i32) -> Result<i32, CFault>
    ensures { answered result ≡ numbers.power base exponent }
{
    let size = exponent.unsigned_abs();
    if exponent < 0 {
        inverse_power(base, size)
    } else {
        whole_power(base, size)
    }
}

/// SIGN (15.10): the magnitude of the first number with the sign of the second.
///
/// # Errors
/// `Overflow` for the least number, where the sign is not negative.
pub fn signed(number: i32, sign: i32) -> Result<i32, CFault>
    ensures { answered result ≡ numbers.signed number sign }
{
    if 0 <= sign {
        number.checked_abs().ok_or(CFault::Overflow)
    } else if number < 0 {
        Ok(number)
    } else {
        Ok(-number)
    }
}

/// DIM (15.10): the difference where it is positive, else 0.
///
/// # Errors
/// `Overflow` for a difference outside 32 bits.
pub fn positive_difference(left: i32, right: i32) -> Result<i32, CFault>
    ensures { answered result ≡ numbers.positive_difference left right }
{
    if right < left {
        left.checked_sub(right).ok_or(CFault::Overflow)
    } else {
        Ok(0)
    }
}
