//! Arithmetic on integers of 32 bits: none where the value does not fit. Sections 6.1 and 15.10.

ghost use Rattle.std.specs.Prelude.{◌≡◌, ◌<ℤ◌, option_map, pos, neg_ℤ, nat_abs, ◌+ℤ◌, ◌-ℤ◌, ◌*ℤ◌};
ghost use Rattle.f_tree.specs.Values.{IsInt, checked};
ghost use Rattle.f_tree.specs.Valuing as valuing;
ghost use Rattle.constant_values.specs.Folded.{given};

/// A sum.
#[tactic(auto, using(crate::proofs::IntegerLemmas::fitting))]
pub(crate) fn sum(a: i32, b: i32) -> Option<i32>
    ensures { option_map IsInt result ≡ given (checked (a +ℤ b)) }
{
    a.checked_add(b)
}

/// A difference.
#[tactic(auto, using(crate::proofs::IntegerLemmas::fitting))]
pub(crate) fn difference(a: i32, b: i32) -> Option<i32>
    ensures { option_map IsInt result ≡ given (checked (a -ℤ b)) }
{
    a.checked_sub(b)
}

/// A product.
#[tactic(auto, using(crate::proofs::IntegerLemmas::fitting))]
pub(crate) fn product(a: i32, b: i32) -> Option<i32>
    ensures { option_map IsInt result ≡ given (checked (a *ℤ b)) }
{
    a.checked_mul(b)
}

/// A number with the other sign.
#[tactic(auto, using(crate::proofs::IntegerLemmas::fitting))]
pub(crate) fn negated(a: i32) -> Option<i32>
    ensures { option_map IsInt result ≡ given (checked (neg_ℤ a)) }
{
    a.checked_neg()
}

/// A number without its sign.
#[tactic(auto, using(crate::proofs::IntegerLemmas::fitting))]
pub(crate) fn magnitude(a: i32) -> Option<i32>
    ensures { option_map IsInt result ≡ given (checked (pos (nat_abs a))) }
{
    a.checked_abs()
}

/// A quotient, cut towards zero.
#[tactic(auto, using(crate::proofs::IntegerLemmas::dividing))]
pub(crate) fn quotient(a: i32, b: i32) -> Option<i32>
    ensures { option_map IsInt result ≡ given (valuing.divided a b) }
{
    a.checked_div(b)
}

/// A remainder, with the sign of the first operand; none where the quotient does not fit.
#[tactic(auto, using(crate::proofs::IntegerLemmas::remaining))]
pub(crate) fn remainder(a: i32, b: i32) -> Option<i32>
    ensures { option_map IsInt result ≡ given (valuing.remainder_of a b) }
{
    a.checked_rem(b)
}

/// A power of a positive exponent or of 0.
#[tactic(auto, using(crate::proofs::IntegerLemmas::powering))]
fn whole_power(base: i32, exponent: u32) -> Option<i32>
    ensures { option_map IsInt result ≡ given (checked (valuing.power_of base exponent)) }
{
    base.checked_pow(exponent)
}

/// 1 over a power, which is 0 where the power does not fit.
#[tactic(auto, using(crate::proofs::IntegerLemmas::inverse_laws))]
fn inverse_power(base: i32, exponent: u32) -> Option<i32>
    ensures { option_map IsInt result ≡ given (valuing.inverse_of (valuing.power_of base exponent)) }
{
    match whole_power(base, exponent) {
        Some(power) => quotient(1, power),
        None => Some(0),
    }
}

/// A power.
pub(crate) fn power(base: i32, exponent: i32) -> Option<i32>
    ensures { option_map IsInt result ≡ given (valuing.raised base exponent) }
{
    let size = exponent.unsigned_abs();
    if exponent < 0 {
        inverse_power(base, size)
    } else {
        whole_power(base, size)
    }
}

/// The size of the first with the sign of the second, which is negative.
fn with_minus(a: i32, b: i32) -> Option<i32>
    requires { b <ℤ pos 0 }
    ensures { option_map IsInt result ≡ given (valuing.with_sign_of a b) }
{
    if a < 0 { Some(a) } else { negated(a) }
}

/// The size of the first with the sign of the second.
pub(crate) fn with_sign_of(a: i32, b: i32) -> Option<i32>
    ensures { option_map IsInt result ≡ given (valuing.with_sign_of a b) }
{
    if b < 0 {
        with_minus(a, b)
    } else {
        magnitude(a)
    }
}

/// How far the first is above the second, or 0.
#[tactic(auto, using(crate::proofs::IntegerLemmas::fitting), unfolding(f_tree::specs::Valuing::difference_over, crate::specs::Folded::given))]
pub(crate) fn difference_over(a: i32, b: i32) -> Option<i32>
    ensures { option_map IsInt result ≡ given (valuing.difference_over a b) }
{
    if b < a { difference(a, b) } else { Some(0) }
}
