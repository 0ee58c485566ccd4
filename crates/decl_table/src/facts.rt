//! What each name of a unit is. Section 18.

ghost use Rattle.std.specs.Prelude.{IfOk};
ghost use Rattle.name_facts.specs.GivenFacts.{AreNameFacts, IsOwnFact};
ghost use Rattle.name_table.specs.Named.{texts};
ghost use Rattle.decl_table.specs.UnitFacts.{AreDeclarations, AreFactsAmong};

use crate::bounds::{constant_bounds, has_size};
use crate::declarations::{Declarations, unit_declarations};
use crate::widths::width_by;
use constant_values::copied_if;
use declared_types::{shape, typed_name};
use f_tree::Unit;
use name_classes::class_of;
use name_facts::{NameFact, NameFacts};
use name_places::all_names;
use std::alloc::{AllocError, Global};

/// What a name is by what the statements of the unit declare, also where it is no name of the unit, as a dummy argument of a statement function.
/// An error where memory ran out.
pub fn own_fact(
    alloc: Global,
    unit: &Unit,
    declared: &Declarations,
    name: &[u8],
) -> Result<NameFact, AllocError>
    requires { AreDeclarations unit.now declared.now }
    ensures { IfOk result (λ fact. IsOwnFact unit.now name.now fact) }
{
    let typed = typed_name(unit, &declared.types, name);
    let dimensions = shape(unit, &declared.shapes, name);
    let width = width_by(alloc, &declared.constants, typed)?;
    let bounds = constant_bounds(alloc, &declared.constants, &declared.functions, dimensions)?;
    let constant = copied_if(alloc, declared.constants.value(name))?;
    Ok(NameFact {
        class: class_of(unit, &declared.signs, name),
        basic: typed.basic,
        width,
        rank: dimensions.len(),
        sized: has_size(dimensions),
        bounds,
        constant,
    })
}

/// What each of names is.
fn facts_among<'a>(
    alloc: Global,
    unit: &Unit,
    declared: &Declarations,
    names: &[&'a [u8]],
) -> Result<NameFacts<'a>, AllocError>
    requires { AreDeclarations unit.now declared.now }
    ensures { IfOk result (λ facts. AreFactsAmong unit.now (texts names.now) facts) }
{
    let mut facts = NameFacts::new(alloc);
    for name in names {
        let fact = own_fact(alloc, unit, declared, name)?;
        facts.put(name, fact)?;
    }
    Ok(facts)
}

/// What each name of a unit is, from what its statements declare.
fn unit_facts<'a>(
    alloc: Global,
    unit: &'a Unit,
    declared: &Declarations,
) -> Result<NameFacts<'a>, AllocError>
    requires { AreDeclarations unit.now declared.now }
    ensures { IfOk result (λ facts. AreNameFacts unit.now facts) }
{
    let names = all_names(alloc, &declared.signs.arrays, unit)?;
    facts_among(alloc, unit, declared, names.as_slice())
}

/// What each name of a unit is, from all statements of the unit. An error where memory ran out.
pub fn name_facts<'a>(alloc: Global, unit: &'a Unit) -> Result<NameFacts<'a>, AllocError>
    ensures { IfOk result (λ facts. AreNameFacts unit.now facts) }
{
    let declared = unit_declarations(alloc, unit)?;
    unit_facts(alloc, unit, &declared)
}
