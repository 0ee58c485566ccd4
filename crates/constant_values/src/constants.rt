//! The constants of a unit with their values. Section 8.6.

ghost use Rattle.std.specs.Prelude.{◌≡◌, OnOk, option_map, None, List, ℕ, if◌then◌else◌, bytes_eq, is_some};
ghost use Rattle.constant_values.specs.KnownConstants.{constant_in, entry_in, first_entry};

use indexmap::IndexMap;
use name_facts::ConstantValue;
use std::alloc::{AllocError, Global};

/// The names of PARAMETER statements with their values. A name whose expression has no value has none.
#[derive(Drop)]
pub struct Constants<'a> {
    values: IndexMap<&'a [u8], Option<ConstantValue>>,
}

impl<'a> Constants<'a> {
    /// No constants.
    #[tactic(auto, unfolding(crate::specs::KnownConstants::entry_in))]
    pub fn new(alloc: Global) -> Constants<'a>
        ensures { (x : List ℕ) → entry_in result x ≡ None }
    {
        Constants {
            values: IndexMap::new(alloc),
        }
    }

    /// The value of a constant, if the name has one.
    #[tactic(auto, unfolding(crate::specs::KnownConstants::constant_in, crate::specs::KnownConstants::entry_in, crate::specs::KnownConstants::value_or_none))]
    pub fn value(&self, name: &[u8]) -> Option<&ConstantValue>
        ensures { option_map (λ value. value.now) result ≡ constant_in self.now name.now }
    {
        match self.values.get(name) {
            Some(value) => value.as_ref(),
            None => None,
        }
    }

    /// Whether a name is defined.
    #[tactic(auto, unfolding(crate::specs::KnownConstants::entry_in))]
    fn has(&self, name: &[u8]) -> bool
        ensures { result ≡ is_some (entry_in self.now name.now) }
    {
        self.values.get(name).is_some()
    }

    /// Gives a value to a name, or none, unless an earlier statement defined it.
    pub fn define(&mut self, name: &'a [u8], value: Option<ConstantValue>) -> Result<(), AllocError>
        ensures { OnOk result ((y : List ℕ) → entry_in self.new y ≡ (if bytes_eq name.now y then first_entry (entry_in self.old y) value else entry_in self.old y)) }
    {
        if self.has(name) {
            return Ok(());
        }
        match self.values.insert(name, value) {
            Ok(_) => Ok(()),
            Err(_) => Err(AllocError),
        }
    }
}
