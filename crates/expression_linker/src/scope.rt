//! The names in scope at a place of a C text (C89, 3.1.2.1).

ghost use Rattle.std.specs.Prelude.{◌≡◌, ℕ, List, None};
ghost use Rattle.first_names.specs.FirstNames.{first_of};
ghost use Rattle.expression_linker.specs.NamesInScope.{named_term, term_or, scope_of};

use crate::things::NamedThing;
use first_names::FirstNames;
use std::alloc::Global;

/// Names in scope: those of a function hide those of its file.
#[derive(Drop)]
pub struct NameScope<'a> {
    /// The objects of the function that last for the whole run.
    pub lasting: FirstNames<'a, NamedThing>,
    /// Its parameters and automatic objects.
    pub frame: FirstNames<'a, NamedThing>,
    /// The functions that it declares.
    pub functions: FirstNames<'a, NamedThing>,
    /// The names of the file.
    pub file: FirstNames<'a, NamedThing>,
}

/// What a name stands for by one table, or else by what is around it.
fn or_around(found: Option<NamedThing>, around: NamedThing) -> NamedThing
    ensures { named_term result ≡ term_or found (named_term around) }
{
    match found {
        Some(thing) => thing,
        None => around,
    }
}

impl<'a> NameScope<'a> {
    /// No names.
    pub fn new(alloc: Global) -> NameScope<'a>
        ensures lasting { (q : List ℕ) → first_of result.lasting q ≡ None }
        ensures frame { (q : List ℕ) → first_of result.frame q ≡ None }
        ensures functions { (q : List ℕ) → first_of result.functions q ≡ None }
        ensures file { (q : List ℕ) → first_of result.file q ≡ None }
    {
        NameScope {
            lasting: FirstNames::new(alloc),
            frame: FirstNames::new(alloc),
            functions: FirstNames::new(alloc),
            file: FirstNames::new(alloc),
        }
    }

    /// What a name stands for.
    #[tactic(auto, unfolding(crate::specs::NamesInScope::scope_of))]
    pub fn thing(&self, name: &[u8]) -> NamedThing
        ensures { named_term result ≡ scope_of self.now name.now }
    {
        let outside = or_around(self.file.get(name), NamedThing::Missing);
        let function = or_around(self.functions.get(name), outside);
        let frame = or_around(self.frame.get(name), function);
        or_around(self.lasting.get(name), frame)
    }
}
