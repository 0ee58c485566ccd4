//! The names of a unit as its expressions see them. Section 18.
#![tactic(auto)]

ghost use Rattle.std.specs.Prelude.{◌≡◌, OnOk, IfOk, None, Some, List, ℕ, bytes_eq, if◌then◌else◌};
ghost use Rattle.std.specs.HashMap.{get_by};
ghost use Rattle.expression_judge.specs.SeenNames.{function_in};
ghost use Rattle.f_tree.specs.Attributes.{arrays_of};
ghost use Rattle.name_facts.specs.GivenFacts.{AreNameFacts, fact_in};
ghost use Rattle.name_table.specs.Named.{names_in, texts, IsNameSet};
ghost use Rattle.definition_judge.specs.KnownFunctions as spec;

use expression_judge::{Fact, Names};
use f_tree::Unit;
use indexmap::IndexMap;
use name_facts::NameFacts;
use name_places::all_names;
use name_table::NameSet;
use std::alloc::{AllocError, Global};

/// What an expression sees of a name.
#[tactic(auto, unfolding(crate::specs::KnownFunctions::seen_of))]
fn seen_fact(facts: &NameFacts, name: &[u8]) -> Fact
    ensures { result ≡ spec.seen_of (fact_in facts.now name.now) }
{
    Fact {
        class: facts.class(name),
        basic: facts.basic(name),
        rank: facts.rank(name),
        sized: facts.is_sized(name),
    }
}

/// Notes what is seen of a name.
fn put_fact<'a>(
    table: &mut IndexMap<&'a [u8], Fact>,
    name: &'a [u8],
    fact: Fact,
) -> Result<(), AllocError>
    ensures { OnOk result ((x : List ℕ)
        → get_by (λ k. bytes_eq x k.now) table.new ≡ (if bytes_eq name.now x then Some fact else get_by (λ k. bytes_eq x k.now) table.old)) }
{
    match table.insert(name, fact) {
        Ok(_) => Ok(()),
        Err(_) => Err(AllocError),
    }
}

/// What is seen of names.
pub(crate) fn seen_facts<'a>(
    alloc: Global,
    facts: &NameFacts,
    names: &[&'a [u8]],
) -> Result<IndexMap<&'a [u8], Fact>, AllocError>
    ensures { IfOk result (λ table. (x : List ℕ) → get_by (λ k. bytes_eq x k.now) table ≡ spec.seen_among facts.now (texts names.now) x) }
{
    let mut table = IndexMap::new(alloc);
    for name in names {
        let fact = seen_fact(facts, name);
        put_fact(&mut table, name, fact)?;
    }
    Ok(table)
}

/// The names of a unit as its expressions see them, none of its statement functions being defined yet, given the names of its arrays
/// (`name_uses::array_set`) and what each of its names is (`decl_table::name_facts`). An error where memory ran out.
pub fn given_names<'a>(
    alloc: Global,
    unit: &'a Unit,
    arrays: &NameSet,
    facts: &NameFacts,
) -> Result<Names<'a>, AllocError>
    requires is_set { IsNameSet arrays.now }
    requires arrays { names_in arrays.now ≡ arrays_of unit.now }
    requires facts { AreNameFacts unit.now facts.now }
    ensures given { IfOk result (λ names. spec.AreGiven unit.now names) }
    ensures functions { IfOk result (λ names. (x : List ℕ) → function_in names x ≡ None) }
{
    let listed = all_names(alloc, arrays, unit)?;
    let seen = seen_facts(alloc, facts, listed.as_slice())?;
    Ok(Names {
        facts: seen,
        functions: IndexMap::new(alloc),
        dummies: IndexMap::new(alloc),
    })
}
