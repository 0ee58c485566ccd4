//! Powers, SIGN and DIM (ANSI X3.9-1978, 6.1.2.1, 6.6 and 15.10), and the bit functions (MIL-STD-1753). Each takes pointers to numbers.

ghost use Rattle.std.specs.Prelude.{[], ◌∷◌};
ghost use Rattle.c_tree.specs.World.{Gives};
ghost use Rattle.c_tree.specs.Builtins as builtin;
ghost use Rattle.library_calls.specs.Answers.{Answers};

use crate::arguments::{number_through, two_numbers};
use c_tree::outcome::{CFault, CValue};
use library_numbers::{
    bit_cleared, bit_set, bit_tested, both_bits, complement, either_bit, one_bit,
    positive_difference, power, shifted_bits, signed,
};
use run_bytes::RunBytes;

/// The power of two numbers (6.1.2.1 and 6.6); to a negative exponent it is 1 divided by the power, cut towards zero.
///
/// # Errors
/// `Overflow` for a result outside 32 bits and `ZeroDivide` for 0 to a negative exponent; the fault of an argument.
pub fn pow_ii(run: &RunBytes, base: CValue, exponent: CValue) -> Result<i32, CFault>
    ensures { Answers Gives builtin.pow_ii (base ∷ exponent ∷ []) run.now run.now result }
{
    match two_numbers(run, base, exponent) {
        Ok((one, other)) => power(one, other),
        Err(fault) => Err(fault),
    }
}

/// SIGN (15.10): the magnitude of the first number with the sign of the second.
///
/// # Errors
/// `Overflow` for the least number, where the sign is not negative; the fault of an argument.
pub fn i_sign(run: &RunBytes, number: CValue, sign: CValue) -> Result<i32, CFault>
    ensures { Answers Gives builtin.i_sign (number ∷ sign ∷ []) run.now run.now result }
{
    match two_numbers(run, number, sign) {
        Ok((one, other)) => signed(one, other),
        Err(fault) => Err(fault),
    }
}

/// DIM (15.10): the difference where it is positive, else 0.
///
/// # Errors
/// `Overflow` for a difference outside 32 bits; the fault of an argument.
pub fn i_dim(run: &RunBytes, left: CValue, right: CValue) -> Result<i32, CFault>
    ensures { Answers Gives builtin.i_dim (left ∷ right ∷ []) run.now run.now result }
{
    match two_numbers(run, left, right) {
        Ok((one, other)) => positive_difference(one, other),
        Err(fault) => Err(fault),
    }
}

/// IOR: each bit that either number has.
///
/// # Errors
/// The fault of an argument.
pub fn i_or(run: &RunBytes, left: CValue, right: CValue) -> Result<i32, CFault>
    ensures { Answers Gives builtin.i_or (left ∷ right ∷ []) run.now run.now result }
{
    match two_numbers(run, left, right) {
        Ok((one, other)) => Ok(either_bit(one, other)),
        Err(fault) => Err(fault),
    }
}

/// IAND: each bit that both numbers have.
///
/// # Errors
/// The fault of an argument.
pub fn i_and(run: &RunBytes, left: CValue, right: CValue) -> Result<i32, CFault>
    ensures { Answers Gives builtin.i_and (left ∷ right ∷ []) run.now run.now result }
{
    match two_numbers(run, left, right) {
        Ok((one, other)) => Ok(both_bits(one, other)),
        Err(fault) => Err(fault),
    }
}

/// IEOR: each bit that one of the numbers has, and not both.
///
/// # Errors
/// The fault of an argument.
pub fn i_eor(run: &RunBytes, left: CValue, right: CValue) -> Result<i32, CFault>
    ensures { Answers Gives builtin.i_eor (left ∷ right ∷ []) run.now run.now result }
{
    match two_numbers(run, left, right) {
        Ok((one, other)) => Ok(one_bit(one, other)),
        Err(fault) => Err(fault),
    }
}

/// ISHFT: the bits moved to the left by a positive count and to the right by a negative one; zeros come in.
///
/// # Errors
/// `Library` for a count below -32 or above 32; the fault of an argument.
pub fn i_shft(run: &RunBytes, number: CValue, count: CValue) -> Result<i32, CFault>
    ensures { Answers Gives builtin.i_shft (number ∷ count ∷ []) run.now run.now result }
{
    match two_numbers(run, number, count) {
        Ok((one, other)) => shifted_bits(one, other),
        Err(fault) => Err(fault),
    }
}

/// BTEST: 1 where the bit at a place from 0, the lowest bit, to 31 is set, else 0.
///
/// # Errors
/// `Library` for another place; the fault of an argument.
pub fn b_test(run: &RunBytes, number: CValue, place: CValue) -> Result<i32, CFault>
    ensures { Answers Gives builtin.b_test (number ∷ place ∷ []) run.now run.now result }
{
    match two_numbers(run, number, place) {
        Ok((one, other)) => bit_tested(one, other),
        Err(fault) => Err(fault),
    }
}

/// IBSET: the number with the bit at a place from 0, the lowest bit, to 31 set.
///
/// # Errors
/// `Library` for another place; the fault of an argument.
pub fn b_set(run: &RunBytes, number: CValue, place: CValue) -> Result<i32, CFault>
    ensures { Answers Gives builtin.b_set (number ∷ place ∷ []) run.now run.now result }
{
    match two_numbers(run, number, place) {
        Ok((one, other)) => bit_set(one, other),
        Err(fault) => Err(fault),
    }
}

/// IBCLR: the number with the bit at a place from 0, the lowest bit, to 31 cleared.
///
/// # Errors
/// `Library` for another place; the fault of an argument.
pub fn b_clr(run: &RunBytes, number: CValue, place: CValue) -> Result<i32, CFault>
    ensures { Answers Gives builtin.b_clr (number ∷ place ∷ []) run.now run.now result }
{
    match two_numbers(run, number, place) {
        Ok((one, other)) => bit_cleared(one, other),
        Err(fault) => Err(fault),
    }
}

/// NOT: each bit that the number does not have.
///
/// # Errors
/// The fault of the argument.
pub fn i_not(run: &RunBytes, number: CValue) -> Result<i32, CFault>
    ensures { Answers Gives builtin.i_not (number ∷ []) run.now run.now result }
{
    match number_through(run, number) {
        Ok(number) => Ok(complement(number)),
        Err(fault) => Err(fault),
    }
}
