//! The sum of the distances of equations.

ghost use Rattle.std.specs.Prelude.{◌≡◌, ◌≤◌, ◌^◌, nat_abs};
ghost use Rattle.std.specs.Bool.{OnTrue};
ghost use Rattle.offset_classes.specs.Standing.{links_of, reach};

use offset_classes::Equation;

/// How far apart an equation puts its numbers.
fn distance(equation: Equation) -> u64
    ensures { result ≡ nat_abs equation.by }
{
    equation.by.unsigned_abs()
}

/// Whether all distances together are no more than places have room for.
pub(crate) fn is_near(equations: &[Equation]) -> bool
    ensures { OnTrue result (reach (links_of equations.now) ≤ 2 ^ 61) }
{
    let mut room: u64 = 2_305_843_009_213_693_952;
    for equation in equations {
        let distance = distance(*equation);
        if distance > room {
            return false;
        }
        room -= distance;
    }
    true
}
