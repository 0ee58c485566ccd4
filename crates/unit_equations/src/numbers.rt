//! Names by numbers. Section 17.1.

ghost use Rattle.std.specs.Prelude.{◌≡◌, [], None, OnOk, IfOk};
ghost use Rattle.name_table.specs.Named.{texts, value_of};
ghost use Rattle.unit_equations.specs.NumbersTold.{count_of, AreNumbers, IsNumberOf, Keeps};

use name_table::NameTable;
use std::alloc::{AllocError, Global};

/// Names by numbers, in the order in which they were asked for first.
#[derive(Drop)]
pub struct Numbers<'a> {
    names: Vec<&'a [u8]>,
    table: NameTable<'a, usize>,
}

impl<'a> Numbers<'a> {
    /// No names.
    pub fn new(alloc: Global) -> Numbers<'a>
        ensures none { texts result.names.items ≡ [] }
        ensures numbers { AreNumbers result }
    {
        Numbers {
            names: Vec::new(alloc),
            table: NameTable::new(alloc),
        }
    }

    /// How many names have numbers.
    pub fn count(&self) -> usize
        ensures { result ≡ count_of self.now }
    {
        self.names.as_slice().len()
    }

    /// The number of a name; a name without a number is given the next.
    ///
    /// # Errors
    ///
    /// Want of memory.
    pub fn number(&mut self, name: &'a [u8]) -> Result<usize, AllocError>
        requires { AreNumbers self.old }
        ensures number { IfOk result (λ number. IsNumberOf self.new name.now number) }
        ensures keeps { OnOk result (Keeps self.old self.new) }
        ensures numbers { OnOk result (AreNumbers self.new) }
    {
        match self.table.get(name) {
            Some(number) => Ok(number),
            None => self.add(name),
        }
    }

    /// Gives the next number to a name that has none.
    fn add(&mut self, name: &'a [u8]) -> Result<usize, AllocError>
        requires numbers { AreNumbers self.old }
        requires missing { value_of self.old.table name.now ≡ None }
        ensures number { IfOk result (λ number. IsNumberOf self.new name.now number) }
        ensures keeps { OnOk result (Keeps self.old self.new) }
        ensures numbers { OnOk result (AreNumbers self.new) }
    {
        let number = self.names.as_slice().len();
        self.table.put(name, number)?;
        self.names.push(name)?;
        Ok(number)
    }
}
