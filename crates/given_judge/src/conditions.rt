//! Conditions that hold together.

ghost use Rattle.std.specs.Prelude.{◌≡◌, ◌&&◌};

/// Whether two conditions hold.
pub(crate) fn both(one: bool, other: bool) -> bool
    ensures { result ≡ (one && other) }
{
    one && other
}
