//! What is known of the names where an expression stands.

ghost use Rattle.std.specs.Prelude.{◌≡◌, option_map, IsTrue};
ghost use Rattle.expression_judge.specs.SeenNames as seen;

use f_tree::{Basic, Class};
use indexmap::IndexMap;
use std::alloc::Global;

/// What a name is, as far as an expression asks: its class, its type, the number of its dimensions, and whether its size is known.
#[derive(Clone, Copy, Debug, PartialEq, Eq)]
pub struct Fact {
    pub class: Class,
    pub basic: Basic,
    pub rank: usize,
    pub sized: bool,
}

/// What is known of the names where an expression stands: what the names of the unit are, the types of the dummy arguments of the statement
/// functions that are defined, and the dummy arguments of the one that is being defined, with their types.
#[derive(Drop)]
pub struct Names<'a> {
    pub facts: IndexMap<&'a [u8], Fact>,
    pub functions: IndexMap<&'a [u8], Vec<Basic>>,
    pub dummies: IndexMap<&'a [u8], Basic>,
}

/// What a name is that no statement tells of.
const NO_FACT: Fact = Fact {
    class: Class::Unit,
    basic: Basic::Untyped,
    rank: 0,
    sized: true,
};

impl<'a> Names<'a> {
    /// No names.
    pub fn new(alloc: Global) -> Names<'a> {
        Names {
            facts: IndexMap::new(alloc),
            functions: IndexMap::new(alloc),
            dummies: IndexMap::new(alloc),
        }
    }

    /// What a name of the unit is.
    #[tactic(auto, unfolding(crate::specs::SeenNames::unit_fact, crate::specs::SeenNames::fact_or, crate::specs::SeenNames::no_fact))]
    fn unit_fact(&self, name: &[u8]) -> Fact
        ensures { result ≡ seen.unit_fact self.now name.now }
    {
        match self.facts.get(name) {
            Some(fact) => *fact,
            None => NO_FACT,
        }
    }

    /// What a name is: a dummy argument of the statement function that is being defined, or a name of the unit.
    #[tactic(auto, unfolding(crate::specs::SeenNames::fact_in, crate::specs::SeenNames::dummy_in, crate::specs::SeenNames::bound_fact, crate::specs::SeenNames::bound_or))]
    pub fn fact(&self, name: &[u8]) -> Fact
        ensures { result ≡ seen.fact_in self.now name.now }
    {
        match self.dummies.get(name) {
            Some(basic) => Fact {
                class: Class::StatementFunction,
                basic: *basic,
                rank: 0,
                sized: true,
            },
            None => self.unit_fact(name),
        }
    }

    /// Whether a name is a dummy argument of the statement function that is being defined.
    #[tactic(auto, unfolding(crate::specs::SeenNames::is_bound_in, crate::specs::SeenNames::dummy_in))]
    pub fn is_bound(&self, name: &[u8]) -> bool
        ensures { result ≡ seen.is_bound_in self.now name.now }
    {
        self.dummies.get(name).is_some()
    }

    /// The types of the dummy arguments of a statement function that is defined already; none for a dummy argument of the one that is being
    /// defined.
    #[tactic(auto, unfolding(crate::specs::SeenNames::function_in))]
    pub fn function(&self, name: &[u8]) -> Option<&[Basic]>
        ensures { option_map (λ basics. basics.now) result ≡ seen.function_in self.now name.now }
    {
        match self.functions.get(name) {
            Some(basics) => Some(basics.as_slice()),
            None => None,
        }
    }
}
