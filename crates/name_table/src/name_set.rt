//! A set of symbolic names.
#![tactic(auto)]

ghost use Rattle.std.specs.Prelude.{◌≡◌, ◌++◌, ◌∷◌, [], OnOk, is_some};
ghost use Rattle.f_tree.specs.Uses.{is_among};
ghost use Rattle.name_table.specs.Named.{value_of, names_in, IsNameSet};

use crate::NameTable;
use std::alloc::{AllocError, Global};

/// Names in their order, and a table that tells whether one is among them.
#[derive(Drop)]
pub struct NameSet<'a> {
    names: Vec<&'a [u8]>,
    table: NameTable<'a, ()>,
}

impl<'a> NameSet<'a> {
    /// A set without names.
    pub fn new(alloc: Global) -> NameSet<'a>
        ensures names { names_in result ≡ [] }
        ensures is_set { IsNameSet result }
    {
        NameSet {
            names: Vec::new(alloc),
            table: NameTable::new(alloc),
        }
    }

    /// Whether a name is in the set.
    pub fn has(&self, name: &[u8]) -> bool
        requires { IsNameSet self.now }
        ensures { result ≡ is_among name.now (names_in self.now) }
    {
        self.table.get(name).is_some()
    }

    /// Adds a name.
    pub fn add(&mut self, name: &'a [u8]) -> Result<(), AllocError>
        requires { IsNameSet self.old }
        ensures names { OnOk result (names_in self.new ≡ names_in self.old ++ name.now ∷ []) }
        ensures is_set { OnOk result (IsNameSet self.new) }
    {
        self.table.put(name, ())?;
        self.names.push(name)?;
        Ok(())
    }
}
