//! The names of a unit.

ghost use Rattle.std.specs.Prelude.{◌≡◌, ◌&&◌, map};
ghost use Rattle.std.specs.List.{list_all};
ghost use Rattle.f_tree.specs.declared.names.Options.{Options as GivenOptions};
ghost use Rattle.f_tree.specs.Lines.{unit_kind, unit_read};
ghost use Rattle.name_facts.specs.declaration_rows.NameRows.{all_names};
ghost use Rattle.name_facts.specs.GivenFacts.{AreNameFacts, fact_in};
ghost use Rattle.plain_forms.specs.SpellableNames as spelled;
ghost use Rattle.plain_forms.specs.PlainUnits.{is_main, has_one_entry, has_own_storage, names_are_plain};
ghost use Rattle.plain_names.specs.ToldNames as spec;

use crate::name::is_plain_name;
use crate::spelling::is_spelled_name;
use crate::units::{has_one_entry, has_own_storage, is_main};
use f_tree::Unit;
use name_facts::NameFacts;

/// Whether each of names is plain, by what the table tells of it.
fn are_plain(table: &NameFacts, names: &[&[u8]]) -> bool
    ensures { result ≡ list_all (λ name. spec.is_plain name.now (fact_in table.now name.now)) names.now }
{
    names.iter().all(|name| is_plain_name(table, name))
}

/// Whether each of names can be spelled in C, by what the table tells of it.
fn are_spelled(table: &NameFacts, names: &[&[u8]]) -> bool
    ensures { result ≡ list_all (λ name. spec.is_spelled name.now (fact_in table.now name.now)) names.now }
{
    names.iter().all(|name| is_spelled_name(table, name))
}

/// Whether a unit is a main program with one entry and storage of its own, and each of its names is plain: an integer or a logical where it is
/// stored, with constant bounds that fit. The names are all of the unit, and the table tells what they are.
pub fn has_plain_names(unit: &Unit, table: &NameFacts, names: &[&[u8]]) -> bool
    requires table { AreNameFacts unit.now table.now }
    requires names { map (λ name. name.now) names.now ≡ all_names unit.now }
    ensures { result ≡ (is_main (unit_kind unit.now) && (has_one_entry unit.now && (has_own_storage unit.now && names_are_plain unit.now))) }
{
    is_main(unit) && has_one_entry(unit) && has_own_storage(unit) && are_plain(table, names)
}

/// Whether each name that is stored begins with a letter, and each array has an element.
pub fn is_spellable(unit: &Unit, table: &NameFacts, names: &[&[u8]]) -> bool
    requires table { AreNameFacts unit.now table.now }
    requires names { map (λ name. name.now) names.now ≡ all_names unit.now }
    ensures { (options : GivenOptions) → result ≡ spelled.is_spellable (unit_read options unit.now) }
{
    are_spelled(table, names)
}
