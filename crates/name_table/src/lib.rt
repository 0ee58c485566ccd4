//! Values by symbolic names and by statement labels, looked up without a walk over all of them.
#![tactic(auto)]

pub mod name_set;

ghost use Rattle.std.specs.Prelude.{◌≡◌, None, Some, OnOk, ℕ, List, bytes_eq, nat_eq, if◌then◌else◌};
ghost use Rattle.name_table.specs.Named.{value_of, labelled};

use indexmap::IndexMap;
pub use name_set::NameSet;
use std::alloc::{AllocError, Global};

/// Names with one value each. The names are kept where they stand in the statements.
#[derive(Drop)]
pub struct NameTable<'a, V> {
    values: IndexMap<&'a [u8], V>,
}

impl<'a, V: Copy + Drop> NameTable<'a, V> {
    /// A table without names.
    #[tactic(auto, unfolding(crate::specs::Named::value_of))]
    pub fn new(alloc: Global) -> NameTable<'a, V>
        ensures { (q : List ℕ) → value_of result q ≡ None }
    {
        NameTable {
            values: IndexMap::new(alloc),
        }
    }

    /// The value of a name, if it has one.
    #[tactic(auto, unfolding(crate::specs::Named::value_of))]
    pub fn get(&self, name: &[u8]) -> Option<V>
        ensures { result ≡ value_of self.now name.now }
    {
        self.values.get(name).copied()
    }

    /// Gives a value to a name, in place of the one that it has.
    pub fn put(&mut self, name: &'a [u8], value: V) -> Result<(), AllocError>
        ensures { OnOk result ((q : List ℕ) → value_of self.new q ≡ (if bytes_eq name.now q then Some value else value_of self.old q)) }
    {
        match self.values.insert(name, value) {
            Ok(_) => Ok(()),
            Err(_) => Err(AllocError),
        }
    }
}

/// Statement labels with one value each.
#[derive(Drop)]
pub struct LabelTable<V> {
    values: IndexMap<u32, V>,
}

impl<V: Copy + Drop> LabelTable<V> {
    /// A table without labels.
    #[tactic(auto, unfolding(crate::specs::Named::labelled))]
    pub fn new(alloc: Global) -> LabelTable<V>
        ensures { (q : ℕ) → labelled result q ≡ None }
    {
        LabelTable {
            values: IndexMap::new(alloc),
        }
    }

    /// The value of a label, if it has one.
    #[tactic(auto, unfolding(crate::specs::Named::labelled))]
    pub fn get(&self, label: u32) -> Option<V>
        ensures { result ≡ labelled self.now label }
    {
        self.values.get(&label).copied()
    }

    /// Gives a value to a label, in place of the one that it has.
    pub fn put(&mut self, label: u32, value: V) -> Result<(), AllocError>
        ensures { OnOk result ((q : ℕ) → labelled self.new q ≡ (if nat_eq label q then Some value else labelled self.old q)) }
    {
        match self.values.insert(label, value) {
            Ok(_) => Ok(()),
            Err(_) => Err(AllocError),
        }
    }
}
