//! Whether a name can be spelled in C.

ghost use Rattle.std.specs.Prelude.{◌≡◌};
ghost use Rattle.c_emit.specs.c_tree.Tokens.{begins_with, is_letter};
ghost use Rattle.name_facts.specs.GivenFacts.{fact_in};
ghost use Rattle.plain_names.specs.ToldNames as spec;

use crate::bounds::all_have_length;
use crate::name::is_stored;
use name_facts::{NameFact, NameFacts};

/// Whether a name begins with a letter.
pub fn begins_with_letter(name: &[u8]) -> bool
    ensures { result ≡ begins_with is_letter name.now }
{
    match name.first() {
        Some(byte) => matches!(*byte, b'a'..=b'z' | b'A'..=b'Z' | b'_'),
        None => false,
    }
}

/// Whether a name can be spelled in C, given what it is.
#[tactic(auto, unfolding(crate::specs::ToldNames::is_spelled))]
fn is_spelled(name: &[u8], fact: &NameFact) -> bool
    ensures { result ≡ spec.is_spelled name.now fact.now }
{
    !is_stored(fact.class) || (begins_with_letter(name) && all_have_length(fact.bounds.as_slice()))
}

/// Whether a name that is stored begins with a letter, and has an element, if it is that of an array.
#[tactic(auto, using(crate::proofs::ToldLaws::unknown_is_spelled), unfolding(name_facts::specs::GivenFacts::fact_or))]
pub(crate) fn is_spelled_name(table: &NameFacts, name: &[u8]) -> bool
    ensures { result ≡ spec.is_spelled name.now (fact_in table.now name.now) }
{
    match table.get(name) {
        Some(fact) => is_spelled(name, fact),
        None => true,
    }
}
