//! The table of the names of a unit.

ghost use Rattle.std.specs.Prelude.{◌≡◌, OnOk, option_map, if◌then◌else◌, List, ℕ, bytes_eq};
ghost use Rattle.name_facts.specs.GivenFacts.{fact_in, fact_or, no_fact};

use crate::fact::{ConstantValue, NameFact};
use f_tree::{Basic, Class};
use indexmap::IndexMap;
use std::alloc::{AllocError, Global};

/// The names of a unit with what they are. The names are kept where they stand in the statements.
#[derive(Drop)]
pub struct NameFacts<'a> {
    facts: IndexMap<&'a [u8], NameFact>,
}

impl<'a> NameFacts<'a> {
    /// A table without names.
    #[tactic(auto, unfolding(crate::specs::GivenFacts::fact_in, crate::specs::GivenFacts::fact_or))]
    pub fn new(alloc: Global) -> NameFacts<'a>
        ensures { (x : List ℕ) → fact_in result x ≡ no_fact }
    {
        NameFacts {
            facts: IndexMap::new(alloc),
        }
    }

    /// What a name is, if the table has it. A name that it does not have is the program unit itself, or nothing: it has no type, no value and
    /// no dimensions.
    #[tactic(auto, unfolding(crate::specs::GivenFacts::fact_in))]
    pub fn get(&self, name: &[u8]) -> Option<&NameFact>
        ensures { fact_or (option_map (λ fact. fact.now) result) ≡ fact_in self.now name.now }
    {
        self.facts.get(name)
    }

    /// The class of a name.
    #[tactic(auto, unfolding(crate::specs::GivenFacts::fact_or, crate::specs::GivenFacts::no_fact))]
    pub fn class(&self, name: &[u8]) -> Class
        ensures { result ≡ (fact_in self.now name.now).class }
    {
        match self.get(name) {
            Some(fact) => fact.class,
            None => Class::Unit,
        }
    }

    /// The type of a name.
    #[tactic(auto, unfolding(crate::specs::GivenFacts::fact_or, crate::specs::GivenFacts::no_fact))]
    pub fn basic(&self, name: &[u8]) -> Basic
        ensures { result ≡ (fact_in self.now name.now).basic }
    {
        match self.get(name) {
            Some(fact) => fact.basic,
            None => Basic::Untyped,
        }
    }

    /// The character units of one element of a name.
    #[tactic(auto, unfolding(crate::specs::GivenFacts::fact_or, crate::specs::GivenFacts::no_fact))]
    pub fn width(&self, name: &[u8]) -> Option<u32>
        ensures { result ≡ (fact_in self.now name.now).width }
    {
        match self.get(name) {
            Some(fact) => fact.width,
            None => None,
        }
    }

    /// The number of dimensions of a name.
    #[tactic(auto, unfolding(crate::specs::GivenFacts::fact_or, crate::specs::GivenFacts::no_fact))]
    pub fn rank(&self, name: &[u8]) -> usize
        ensures { result ≡ (fact_in self.now name.now).rank }
    {
        match self.get(name) {
            Some(fact) => fact.rank,
            None => 0,
        }
    }

    /// Whether no upper bound of a name is `*`.
    #[tactic(auto, unfolding(crate::specs::GivenFacts::fact_or, crate::specs::GivenFacts::no_fact))]
    pub fn is_sized(&self, name: &[u8]) -> bool
        ensures { result ≡ (fact_in self.now name.now).sized }
    {
        match self.get(name) {
            Some(fact) => fact.sized,
            None => true,
        }
    }

    /// The value of a constant, if the name has one.
    #[tactic(auto, unfolding(crate::specs::GivenFacts::fact_or, crate::specs::GivenFacts::no_fact))]
    pub fn constant(&self, name: &[u8]) -> Option<&ConstantValue>
        ensures { option_map (λ value. value.now) result ≡ (fact_in self.now name.now).constant }
    {
        match self.get(name) {
            Some(fact) => fact.constant.as_ref(),
            None => None,
        }
    }

    /// Says what a name is, in place of what was said of it.
    #[tactic(auto, unfolding(crate::specs::GivenFacts::fact_in, crate::specs::GivenFacts::fact_or))]
    pub fn put(&mut self, name: &'a [u8], fact: NameFact) -> Result<(), AllocError>
        ensures { OnOk result ((x : List ℕ) → fact_in self.new x ≡ (if bytes_eq name.now x then fact else fact_in self.old x)) }
    {
        match self.facts.insert(name, fact) {
            Ok(_) => Ok(()),
            Err(_) => Err(AllocError),
        }
    }
}
