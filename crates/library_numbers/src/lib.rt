//! What the functions of the library give of numbers: powers, SIGN, DIM and the bit functions (ANSI X3.9-1978, 6.1.2.1 and
//! 15.10, and MIL-STD-1753). Each is a function of numbers of 32 bits alone, and takes no memory.
#![tactic(auto)]

mod bits;
mod integers;

pub use bits::{
    bit_cleared, bit_set, bit_tested, both_bits, complement, either_bit, one_bit, shifted_bits,
};
pub use integers::{positive_difference, power, signed};
