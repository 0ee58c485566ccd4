//! Positions of steps.

ghost use Rattle.std.specs.Prelude.{◌≡◌, ◌+◌, suc, IfOk};

use std::alloc::AllocError;

/// The next position. Fails where it has no number.
pub(crate) fn following(position: usize) -> Result<usize, AllocError>
    ensures { IfOk result (λ n. n ≡ suc position) }
{
    match position.checked_add(1) {
        Some(next) => Ok(next),
        None => Err(AllocError),
    }
}

/// A position so many steps behind the next one. Fails where it has no number.
pub(crate) fn onward(position: usize, passed: usize) -> Result<usize, AllocError>
    ensures { IfOk result (λ n. n ≡ suc position + passed) }
{
    let next = following(position)?;
    match next.checked_add(passed) {
        Some(place) => Ok(place),
        None => Err(AllocError),
    }
}
