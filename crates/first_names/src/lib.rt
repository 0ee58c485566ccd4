//! Names with a value each, where the first that was given to a name counts, looked up without a walk over all of them.
#![tactic(auto)]

ghost use Rattle.std.specs.Prelude.{◌≡◌, None, Some, OnOk, ℕ, List, bytes_eq, if◌then◌else◌};
ghost use Rattle.first_names.specs.FirstNames.{first_of, or_later};

use indexmap::IndexMap;
use std::alloc::{AllocError, Global};

/// Names with the first value that each was given. They are kept where they stand in a text.
#[derive(Drop)]
pub struct FirstNames<'a, V> {
    values: IndexMap<&'a [u8], V>,
}

impl<'a, V: Copy + Drop> FirstNames<'a, V> {
    /// No names.
    #[tactic(auto, unfolding(crate::specs::FirstNames::first_of))]
    pub fn new(alloc: Global) -> FirstNames<'a, V>
        ensures { (q : List ℕ) → first_of result q ≡ None }
    {
        FirstNames {
            values: IndexMap::new(alloc),
        }
    }

    /// The value of a name, if it has one.
    #[tactic(auto, unfolding(crate::specs::FirstNames::first_of))]
    pub fn get(&self, name: &[u8]) -> Option<V>
        ensures { result ≡ first_of self.now name.now }
    {
        self.values.get(name).copied()
    }

    /// Gives a value to a name, unless it has one.
    pub fn give(&mut self, name: &'a [u8], value: V) -> Result<(), AllocError>
        ensures { OnOk result ((q : List ℕ) → first_of self.new q ≡ or_later (first_of self.old q) (if bytes_eq q name.now then Some value else None)) }
    {
        if self.get(name).is_some() {
            return Ok(());
        }
        match self.values.insert(name, value) {
            Ok(_) => Ok(()),
            Err(_) => Err(AllocError),
        }
    }

    /// Forgets all names.
    #[tactic(auto, unfolding(crate::specs::FirstNames::first_of))]
    pub fn clear(&mut self)
        ensures { (q : List ℕ) → first_of self.new q ≡ None }
    {
        self.values.clear();
    }
}
