//! The names where an expression stands, with their classes and their lengths. Sections 8.4.2 and 15.4.
#![tactic(auto)]

ghost use Rattle.std.specs.Prelude.{◌≡◌};
ghost use Rattle.f_tree.specs.Lines.{is_character};
ghost use Rattle.name_facts.specs.GivenFacts.{fact_in};
ghost use Rattle.length_judge.specs.KnownNames as spec;

use constant_values::Constants;
use f_tree::{Basic, Class, Unit};
use name_facts::{NameFact, NameFacts};
use name_table::NameTable;

/// What lengths ask of a name.
#[derive(Clone, Copy, Debug, PartialEq, Eq)]
pub(crate) struct NameLength {
    pub class: Class,
    /// Whether it is of type CHARACTER without a constant length, as of length `(*)`. Section 8.4.2.
    pub is_star: bool,
    /// Its length; 0 for one that is not of type CHARACTER or has no constant length.
    pub characters: u32,
}

/// What is known of the names where an expression stands.
#[derive(Drop)]
pub(crate) struct Names<'a> {
    pub unit: &'a Unit,
    /// What each name of the unit is.
    pub table: &'a NameFacts<'a>,
    /// The constants of the unit with their values. Section 8.6.
    pub constants: &'a Constants<'a>,
    /// The dummy arguments of the definition of a statement function around the expression. Section 15.4.
    pub dummies: NameTable<'a, NameLength>,
}

/// Whether a type is CHARACTER.
#[tactic(auto, unfolding(f_tree::specs::Lines::is_character))]
pub(crate) fn is_character(basic: Basic) -> bool
    ensures { result ≡ is_character basic }
{
    match basic {
        Basic::Character => true,
        Basic::Integer | Basic::Logical | Basic::Untyped => false,
    }
}

/// A name of type CHARACTER by its width.
#[tactic(auto, unfolding(crate::specs::KnownNames::text_measured, declaration_rows::specs::LengthRows::declared_width))]
fn text_length(class: Class, width: Option<u32>) -> NameLength
    ensures { result ≡ spec.text_measured class width }
{
    match width {
        Some(characters) => NameLength {
            class,
            is_star: false,
            characters,
        },
        None => NameLength {
            class,
            is_star: true,
            characters: 0,
        },
    }
}

/// A name by its class, its type and its width.
#[tactic(auto, unfolding(crate::specs::KnownNames::measured, f_tree::specs::Lines::is_character))]
fn measured(class: Class, basic: Basic, width: Option<u32>) -> NameLength
    ensures { result ≡ spec.measured class basic width }
{
    if is_character(basic) {
        text_length(class, width)
    } else {
        NameLength {
            class,
            is_star: false,
            characters: 0,
        }
    }
}

/// What lengths ask of a name, of which a table tells what it is.
#[tactic(auto, unfolding(crate::specs::KnownNames::fact_length))]
pub(crate) fn fact_length(fact: &NameFact) -> NameLength
    ensures { result ≡ spec.fact_length fact.now }
{
    measured(fact.class, fact.basic, fact.width)
}

/// What lengths ask of a name of the unit.
#[tactic(auto, unfolding(crate::specs::KnownNames::fact_length))]
fn unit_length(table: &NameFacts, name: &[u8]) -> NameLength
    ensures { result ≡ spec.fact_length (fact_in table.now name.now) }
{
    measured(table.class(name), table.basic(name), table.width(name))
}

/// What lengths ask of a name: of a dummy argument of the definition around the expression, or of a name of the unit.
pub(crate) fn name_length(names: &Names, name: &[u8]) -> NameLength
    requires { spec.AreKnown names.now }
    ensures { result ≡ spec.length_of (spec.naming_in names.now name.now) }
{
    match names.dummies.get(name) {
        Some(own) => own,
        None => unit_length(names.table, name),
    }
}
