//! Constants, and names alone.

ghost use Rattle.std.specs.Prelude.{◌≡◌, IfOk, true, option_map};
ghost use Rattle.f_tree.specs.Values.{IsInt, IsLog, IsText, IsLabel};
ghost use Rattle.lowered_tree.specs.l_core.Pures as core;
ghost use Rattle.lowering.specs.Expressions as low;
ghost use Rattle.lowered_tree.specs.Shapes as shapes;
ghost use Rattle.name_facts.specs.GivenFacts.{fact_in, datum_of};
ghost use Rattle.expression_lowering.specs.Purposes.{purpose_of};
ghost use Rattle.expression_lowering.specs.TableNames.{name_lowers};
ghost use Rattle.expression_lowering.specs.LoweredForms as spec;
ghost use Rattle.expression_lowering.specs.Outcomes.{IsPlain, IsLowered};

use crate::answers::Lowered;
use crate::closing::load;
use crate::purpose::{Aspect, Purpose};
use f_tree::names::Class;
use lowered_tree::{Literal, Pure, Step};
use name_facts::{ConstantValue, NameFacts};
use plain_data::Items;
use std::alloc::{AllocError, Global};

/// An integer. Section 4.3.
#[tactic(auto, using(lowered_tree::proofs::ShapeForms::pure_forms))]
pub(crate) fn integer(number: &i32, free: usize) -> Lowered
    ensures { IsPlain (core.Constant (IsInt number.now)) free result }
{
    Lowered {
        value: Pure::Constant(Literal::Integer(*number)),
        free,
    }
}

/// A truth value. Section 4.7.
#[tactic(auto, using(lowered_tree::proofs::ShapeForms::pure_forms))]
pub(crate) fn logical(truth: bool, free: usize) -> Lowered
    ensures { IsPlain (core.Constant (IsLog truth)) free result }
{
    Lowered {
        value: Pure::Constant(Literal::Logical(truth)),
        free,
    }
}

/// A statement label. Section 15.9.3.5.
#[tactic(auto, using(lowered_tree::proofs::ShapeForms::pure_forms))]
pub(crate) fn label(at: u32, free: usize) -> Lowered
    ensures { IsPlain (core.Constant (IsLabel at)) free result }
{
    Lowered {
        value: Pure::Constant(Literal::Label(at)),
        free,
    }
}

/// A text. Section 4.8.
#[tactic(auto, using(lowered_tree::proofs::ShapeForms::pure_forms))]
pub(crate) fn text(alloc: Global, characters: &[u8], free: usize) -> Result<Lowered, AllocError>
    ensures { IfOk result (IsPlain (core.Constant (IsText characters.now)) free) }
{
    let characters = Items::from_slice(alloc, characters)?;
    Ok(Lowered {
        value: Pure::Constant(Literal::Text(characters)),
        free,
    })
}

/// A name as it is.
#[tactic(auto, using(lowered_tree::proofs::ShapeForms::pure_forms))]
fn whole(alloc: Global, name: &[u8], free: usize) -> Result<Lowered, AllocError>
    ensures { IfOk result (IsPlain (core.Name name.now) free) }
{
    let name = Items::from_slice(alloc, name)?;
    Ok(Lowered {
        value: Pure::Name(name),
        free,
    })
}

/// The value of a constant.
#[tactic(auto, unfolding(name_facts::specs::GivenFacts::datum_of))]
fn constant(alloc: Global, value: &ConstantValue, free: usize) -> Result<Lowered, AllocError>
    ensures { IfOk result (IsPlain (core.Constant (datum_of value.now)) free) }
{
    match value {
        ConstantValue::Integer(number) => Ok(integer(number, free)),
        ConstantValue::Logical(truth) => Ok(logical(*truth, free)),
        ConstantValue::Text(characters) => text(alloc, characters.as_slice(), free),
        ConstantValue::Label(at) => Ok(label(*at, free)),
    }
}

/// The name of a constant: its value, where it has one.
#[tactic(auto, unfolding(crate::specs::LoweredForms::constant_pure))]
fn named_constant(
    alloc: Global,
    table: &NameFacts,
    name: &[u8],
    free: usize,
) -> Result<Lowered, AllocError>
    ensures { IfOk result (IsPlain (spec.constant_pure name.now (option_map datum_of (fact_in table.now name.now).constant)) free) }
{
    match table.constant(name) {
        None => whole(alloc, name, free),
        Some(value) => constant(alloc, value, free),
    }
}

/// A variable: it is loaded, or passed as it is.
#[tactic(auto, unfolding(crate::specs::LoweredForms::variable_form))]
fn variable(
    alloc: Global,
    aspect: Aspect,
    purpose: Purpose,
    free: usize,
    name: &[u8],
    steps: &mut Vec<Step>,
) -> Result<Lowered, AllocError>
    ensures { IfOk result (IsLowered (spec.variable_form aspect (purpose_of purpose) free name.now) steps.old.items steps.new.items) }
{
    let place = whole(alloc, name, free)?;
    match aspect {
        Aspect::Value => load(alloc, purpose, free, place, steps),
        Aspect::Actual => Ok(place),
    }
}

/// A name alone.
#[tactic(auto, unfolding(crate::specs::LoweredForms::name_form, crate::specs::TableNames::name_lowers))]
pub(crate) fn lower_name(
    alloc: Global,
    table: &NameFacts,
    aspect: Aspect,
    purpose: Purpose,
    free: usize,
    name: &[u8],
    steps: &mut Vec<Step>,
) -> Result<Lowered, AllocError>
    requires { name_lowers (fact_in table.now name.now).class ≡ true }
    ensures { IfOk result (IsLowered (spec.name_form aspect (purpose_of purpose) free name.now (fact_in table.now name.now).class (option_map datum_of (fact_in table.now name.now).constant)) steps.old.items steps.new.items) }
{
    match table.class(name) {
        Class::Constant => named_constant(alloc, table, name, free),
        Class::Procedure | Class::DummyProcedure | Class::Intrinsic => whole(alloc, name, free),
        Class::Stored | Class::Dummy | Class::Result | Class::Unit => {
            variable(alloc, aspect, purpose, free, name, steps)
        }
        Class::StatementFunction => unreachable!(),
    }
}
