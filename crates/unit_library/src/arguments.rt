//! The values of the arguments of a call (C89, 3.3.2.2).

ghost use Rattle.std.specs.Prelude.{◌≡◌};
ghost use Rattle.unit_library.specs.Arguments.{argument};

use c_tree::outcome::CValue;

/// The value at a place, and null where there is none.
pub(crate) fn argument(values: &[CValue], place: usize) -> CValue
    ensures { result ≡ argument values.now place }
{
    match values.get(place) {
        Some(value) => *value,
        None => CValue::Null,
    }
}
