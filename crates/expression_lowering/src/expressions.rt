//! Expressions, from their trees.

ghost use Rattle.std.specs.Prelude.{◌≡◌, IfOk, map, true, false, option_map, Some};
ghost use Rattle.f_tree.specs.Reading as reading;
ghost use Rattle.lowered_tree.specs.Shapes.{function_of, operator_of, prefix_of};
ghost use Rattle.name_facts.specs.GivenFacts.{fact_in, datum_of};
ghost use Rattle.expression_lowering.specs.Purposes.{purpose_of};
ghost use Rattle.expression_lowering.specs.declared.purpose.Aspect.TheVariants.{Value, Actual};
ghost use Rattle.expression_lowering.specs.TableNames.{is_lowered_value, all_lower, name_lowers, applied_lowers};
ghost use Rattle.expression_lowering.specs.LoweredForms as spec;
ghost use Rattle.expression_lowering.specs.Outcomes.{IsLowered, AreLowered};

use crate::answers::{Lowered, Operands};
use crate::closing::{apply, call, element, join, load, prefix};
use crate::guards::plan;
use crate::intrinsics::{function_named, is_library};
use crate::leaves::{integer, label, logical, lower_name, text};
use crate::operators::{form_of, left_for, right_for, start_for};
use crate::purpose::{Aspect, Purpose, ahead, for_function, for_place};
use crate::references::{any_refers, refers};
use f_tree::Expr;
use f_tree::names::Class;
use lowered_tree::{Function, Prefix, Step};
use name_facts::NameFacts;
use plain_data::Items;
use std::alloc::{AllocError, Global};

/// An expression of a form that is lowered: appends its steps.
#[cycle(lower)]
#[tactic(auto, using(crate::proofs::CoveredForms::covered_forms))]
pub(crate) fn lower(
    alloc: Global,
    table: &NameFacts,
    aspect: Aspect,
    purpose: Purpose,
    free: usize,
    e: &Expr,
    steps: &mut Vec<Step>,
) -> Result<Lowered, AllocError>
    requires { is_lowered_value table.now e.now ≡ true }
    ensures { IfOk result (IsLowered (spec.lowered table.now aspect (purpose_of purpose) free e.now) steps.old.items steps.new.items) }
{
    match e {
        Expr::Int(number) => Ok(integer(number, free)),
        Expr::Logical(truth) => Ok(logical(*truth, free)),
        Expr::Text(characters) => text(alloc, characters.as_slice(), free),
        Expr::Name(name) => lower_name(alloc, table, aspect, purpose, free, name.as_slice(), steps),
        Expr::Apply(name, es) => lower_applied(
            alloc,
            table,
            aspect,
            purpose,
            free,
            name.as_slice(),
            es.as_slice(),
            steps,
        ),
        Expr::Minus(operand) => lower_prefixed(
            alloc,
            table,
            Prefix::Negate,
            purpose,
            free,
            operand.get(),
            steps,
        ),
        Expr::Not(operand) => lower_prefixed(
            alloc,
            table,
            Prefix::Complement,
            purpose,
            free,
            operand.get(),
            steps,
        ),
        Expr::Plus(operand) | Expr::Paren(operand) => lower(
            alloc,
            table,
            Aspect::Value,
            purpose,
            free,
            operand.get(),
            steps,
        ),
        Expr::Binary(op, left, right) => {
            let plan = plan(table, form_of(*op), right.get());
            let wanted = left_for(plan, refers(table, right.get()));
            let one = lower(alloc, table, Aspect::Value, wanted, free, left.get(), steps)?;
            let start = start_for(plan, free, one.free);
            let wanted = right_for(plan);
            let mut behind = Vec::new(alloc);
            let other = lower(
                alloc,
                table,
                Aspect::Value,
                wanted,
                start,
                right.get(),
                &mut behind,
            )?;
            join(alloc, plan, purpose, free, one.value, other, behind, steps)
        }
        Expr::AltReturn(at) => Ok(label(*at, free)),
        Expr::Part(_, _, _) | Expr::Bind(_, _) | Expr::Bound(_) => unreachable!(),
    }
}

/// An operator before its operand.
#[cycle(lower)]
fn lower_prefixed(
    alloc: Global,
    table: &NameFacts,
    op: Prefix,
    purpose: Purpose,
    free: usize,
    operand: &Expr,
    steps: &mut Vec<Step>,
) -> Result<Lowered, AllocError>
    requires { is_lowered_value table.now operand.now ≡ true }
    ensures { IfOk result (IsLowered (spec.prefixed_form table.now (prefix_of op) (purpose_of purpose) free operand.now) steps.old.items steps.new.items) }
{
    let value = lower(
        alloc,
        table,
        Aspect::Value,
        Purpose::ForUse,
        free,
        operand,
        steps,
    )?;
    prefix(alloc, op, purpose, free, value, steps)
}

/// Expressions from left to right, each being kept where one behind it has a reference to a function.
#[cycle(lower)]
fn lower_list(
    alloc: Global,
    table: &NameFacts,
    aspect: Aspect,
    purpose: Purpose,
    first: usize,
    es: &[Expr],
    steps: &mut Vec<Step>,
) -> Result<Operands, AllocError>
    requires { all_lower (map (is_lowered_value table.now) es.now) ≡ true }
    ensures { IfOk result (AreLowered (spec.lowered_list table.now aspect (purpose_of purpose) first es.now) steps.old.items steps.new.items) }
{
    let mut values = Items::new(alloc);
    let mut free = first;
    for (at, e) in es.iter().enumerate() {
        let wanted = ahead(purpose, any_refers(table, &es[at + 1..]));
        let one = lower(alloc, table, aspect, wanted, free, e, steps)?;
        values.push(one.value)?;
        free = one.free;
    }
    Ok(Operands { values, free })
}

/// A name with a list. Sections 5.4, 15.2 and 15.10.
#[cycle(lower)]
#[tactic(auto, unfolding(crate::specs::TableNames::applied_lowers))]
fn lower_applied(
    alloc: Global,
    table: &NameFacts,
    aspect: Aspect,
    purpose: Purpose,
    free: usize,
    name: &[u8],
    es: &[Expr],
    steps: &mut Vec<Step>,
) -> Result<Lowered, AllocError>
    requires name { applied_lowers name.now (fact_in table.now name.now).class ≡ true }
    requires list { all_lower (map (is_lowered_value table.now) es.now) ≡ true }
    ensures { IfOk result (IsLowered (spec.applied_form table.now aspect (purpose_of purpose) free name.now (fact_in table.now name.now).class es.now) steps.old.items steps.new.items) }
{
    match table.class(name) {
        Class::Intrinsic => lower_intrinsic(alloc, table, purpose, free, name, es, steps),
        Class::Procedure | Class::DummyProcedure | Class::Result => {
            lower_reference(alloc, table, purpose, free, name, es, steps)
        }
        Class::Constant | Class::Stored | Class::Dummy | Class::Unit => {
            lower_element(alloc, table, aspect, purpose, free, name, es, steps)
        }
        Class::StatementFunction => unreachable!(),
    }
}

/// An intrinsic function with its operands; one that is unknown is another function. Section 15.10.
#[cycle(lower)]
fn lower_intrinsic(
    alloc: Global,
    table: &NameFacts,
    purpose: Purpose,
    free: usize,
    name: &[u8],
    es: &[Expr],
    steps: &mut Vec<Step>,
) -> Result<Lowered, AllocError>
    requires { all_lower (map (is_lowered_value table.now) es.now) ≡ true }
    ensures { IfOk result (IsLowered (spec.intrinsic_form table.now (purpose_of purpose) free name.now (reading.function_named name.now) es.now) steps.old.items steps.new.items) }
{
    match function_named(name) {
        None => lower_reference(alloc, table, purpose, free, name, es, steps),
        Some(function) => lower_function(alloc, table, purpose, free, function, es, steps),
    }
}

/// A function of its operands.
#[cycle(lower)]
fn lower_function(
    alloc: Global,
    table: &NameFacts,
    purpose: Purpose,
    free: usize,
    function: Function,
    es: &[Expr],
    steps: &mut Vec<Step>,
) -> Result<Lowered, AllocError>
    requires { all_lower (map (is_lowered_value table.now) es.now) ≡ true }
    ensures { IfOk result (IsLowered (spec.function_form table.now (purpose_of purpose) free (function_of function) es.now) steps.old.items steps.new.items) }
{
    let wanted = for_function(is_library(function));
    let operands = lower_list(alloc, table, Aspect::Value, wanted, free, es, steps)?;
    apply(function, purpose, free, operands, steps)
}

/// A reference to a function with its arguments. Section 15.2.
#[cycle(lower)]
fn lower_reference(
    alloc: Global,
    table: &NameFacts,
    purpose: Purpose,
    free: usize,
    name: &[u8],
    es: &[Expr],
    steps: &mut Vec<Step>,
) -> Result<Lowered, AllocError>
    requires { all_lower (map (is_lowered_value table.now) es.now) ≡ true }
    ensures { IfOk result (IsLowered (spec.reference_form table.now (purpose_of purpose) free name.now es.now) steps.old.items steps.new.items) }
{
    let operands = lower_list(
        alloc,
        table,
        Aspect::Actual,
        Purpose::ForCall,
        free,
        es,
        steps,
    )?;
    call(alloc, table, name, purpose, free, operands, steps)
}

/// An element of an array as a place. Section 5.4.
#[cycle(lower)]
fn lower_place(
    alloc: Global,
    table: &NameFacts,
    purpose: Purpose,
    free: usize,
    name: &[u8],
    es: &[Expr],
    steps: &mut Vec<Step>,
) -> Result<Lowered, AllocError>
    requires { all_lower (map (is_lowered_value table.now) es.now) ≡ true }
    ensures { IfOk result (IsLowered (spec.place_form table.now (purpose_of purpose) free name.now es.now) steps.old.items steps.new.items) }
{
    let wanted = for_place(purpose);
    let operands = lower_list(alloc, table, Aspect::Value, wanted, free, es, steps)?;
    element(alloc, name, operands)
}

/// An element of an array: it is loaded, or passed as it is.
#[cycle(lower)]
fn lower_element(
    alloc: Global,
    table: &NameFacts,
    aspect: Aspect,
    purpose: Purpose,
    free: usize,
    name: &[u8],
    es: &[Expr],
    steps: &mut Vec<Step>,
) -> Result<Lowered, AllocError>
    requires { all_lower (map (is_lowered_value table.now) es.now) ≡ true }
    ensures { IfOk result (IsLowered (spec.element_form table.now aspect (purpose_of purpose) free name.now es.now) steps.old.items steps.new.items) }
{
    match aspect {
        Aspect::Value => {
            let place = lower_place(alloc, table, Purpose::ForUse, free, name, es, steps)?;
            load(alloc, purpose, free, place, steps)
        }
        Aspect::Actual => lower_place(alloc, table, purpose, free, name, es, steps),
    }
}
