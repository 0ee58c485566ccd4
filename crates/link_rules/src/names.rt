//! Names, and those that were seen before.

ghost use Rattle.std.specs.Prelude.{◌≡◌, ◌||◌, ℕ, List, bytes_eq, OnOk};
ghost use Rattle.expression_linker.specs.Mentions.{has};

use first_names::FirstNames;
use std::alloc::AllocError;

/// Whether two names are one.
pub(crate) fn same(one: &[u8], other: &[u8]) -> bool
    ensures { result ≡ bytes_eq one.now other.now }
{
    one == other
}

/// Whether a name is one of some names.
pub(crate) fn is_one(names: &FirstNames<'_, ()>, name: &[u8]) -> bool
    ensures { result ≡ has names.now name.now }
{
    names.get(name).is_some()
}

/// Adds a name to those that were seen.
pub(crate) fn add_seen<'a>(names: &mut FirstNames<'a, ()>, name: &'a [u8]) -> Result<(), AllocError>
    ensures { OnOk result ((q : List ℕ) → has names.new q ≡ (has names.old q || bytes_eq q name.now)) }
{
    names.give(name, ())?;
    Ok(())
}
