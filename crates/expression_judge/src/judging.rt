//! Expressions, from their trees.

ghost use Rattle.std.specs.Prelude.{◌≡◌, map, option_map, None};
ghost use Rattle.expression_judge.specs.SeenNames.{fact_in, function_in, is_bound_in};
ghost use Rattle.refusal_order.specs.Earliest.{least as lesser};
ghost use Rattle.expression_judge.specs.Intrinsics.{intrinsic_named};
ghost use Rattle.expression_judge.specs.FoundSteps as spec;

use crate::intrinsics::{intrinsic_named, operands_wanted};
use crate::names::{Fact, Names};
use crate::operand::Found;
use crate::steps::{
    binary, bound, exit, function, in_parentheses, nothing, part, passed, place, procedure, signed,
    value, variable, with_wanted,
};
use f_tree::{Basic, Class, Expr, Kind};
use kind_order::unless;
use plain_data::Boxed;
use refusal_order::lesser_of;

/// An expression, or an actual argument, by what it is and by the least of the rows that it and its parts break.
#[cycle(judge)]
#[tactic(auto, using(crate::proofs::JudgedForms::judged_forms))]
pub fn judge(names: &Names, e: &Expr) -> Found
    ensures { result ≡ spec.judged_by names.now e.now }
{
    match e {
        Expr::Int(_) => value(Basic::Integer, None),
        Expr::Logical(_) => value(Basic::Logical, None),
        Expr::Text(_) => value(Basic::Character, None),
        Expr::Name(name) => judge_name(names, name.as_slice()),
        Expr::Apply(name, es) => applied(names, name.as_slice(), es.as_slice()),
        Expr::Part(base, from, to) => part(
            judge(names, base.get()),
            place_in_text(names, from),
            place_in_text(names, to),
        ),
        Expr::Minus(operand) | Expr::Plus(operand) => {
            signed(Basic::Integer, judge(names, operand.get()))
        }
        Expr::Not(operand) => signed(Basic::Logical, judge(names, operand.get())),
        Expr::Paren(operand) => in_parentheses(judge(names, operand.get())),
        Expr::Binary(op, left, right) => {
            binary(*op, judge(names, left.get()), judge(names, right.get()))
        }
        Expr::AltReturn(label) => exit(*label),
        Expr::Bind(es, body) => nothing(
            Kind::SyntaxError,
            lesser_of(
                arguments(names, es.as_slice()),
                judge(names, body.get()).fault,
            ),
        ),
        Expr::Bound(_) => nothing(Kind::SyntaxError, None),
    }
}

/// A name alone.
#[tactic(auto, unfolding(crate::specs::FoundSteps::name_found, crate::specs::FoundSteps::name_judged_by))]
pub fn judge_name(names: &Names, name: &[u8]) -> Found
    ensures { result ≡ spec.name_judged_by names.now name.now }
{
    let fact = names.fact(name);
    match fact.class {
        Class::Constant => value(fact.basic, None),
        Class::Procedure | Class::DummyProcedure => procedure(fact),
        Class::Intrinsic => function(fact),
        Class::StatementFunction => bound(fact, names.is_bound(name)),
        Class::Unit => nothing(Kind::ConflictingAttributes, None),
        Class::Stored | Class::Dummy | Class::Result => variable(fact),
    }
}

/// The first or the last place of a substring.
#[cycle(judge)]
#[tactic(auto, unfolding(crate::specs::FoundSteps::end_found))]
fn place_in_text(names: &Names, place: &Option<Boxed<Expr>>) -> Option<Kind>
    ensures { result ≡ spec.end_found (option_map (spec.judged_by names.now) place.now) }
{
    match place {
        Some(e) => with_wanted(Basic::Integer, judge(names, e.get())),
        None => None,
    }
}

/// A name with a list.
#[cycle(judge)]
#[tactic(auto, unfolding(crate::specs::FoundSteps::applied_found, crate::specs::FoundSteps::reference_found))]
fn applied(names: &Names, name: &[u8], es: &[Expr]) -> Found
    ensures { result ≡ spec.applied_found names.now name.now (fact_in names.now name.now) (map (spec.judged_by names.now) es.now) }
{
    let fact = names.fact(name);
    match fact.class {
        Class::Constant | Class::Unit => {
            nothing(Kind::ConflictingAttributes, arguments(names, es))
        }
        Class::Intrinsic => intrinsic(names, name, es),
        Class::StatementFunction => defined(names, name, fact, es),
        Class::Procedure | Class::DummyProcedure | Class::Result => {
            value(fact.basic, passed_arguments(names, es))
        }
        Class::Stored | Class::Dummy => element(names, fact, es),
    }
}

/// An intrinsic function with its list. Section 15.10.
#[cycle(judge)]
#[tactic(auto, unfolding(crate::specs::FoundSteps::intrinsic_found))]
fn intrinsic(names: &Names, name: &[u8], es: &[Expr]) -> Found
    ensures { result ≡ spec.intrinsic_found (intrinsic_named name.now) (map (spec.judged_by names.now) es.now) }
{
    match intrinsic_named(name) {
        None => nothing(Kind::ConflictingAttributes, arguments(names, es)),
        Some(intrinsic) => value(
            intrinsic.gives,
            same_arguments(
                names,
                intrinsic.wants,
                operands_wanted(intrinsic, es.len()),
                es,
            ),
        ),
    }
}

/// A statement function, or a dummy argument of the one that is being defined, with a list. Section 15.4.
#[cycle(judge)]
#[tactic(auto, unfolding(crate::specs::FoundSteps::defined_found))]
fn defined(names: &Names, name: &[u8], fact: Fact, es: &[Expr]) -> Found
    ensures { result ≡ spec.defined_found fact (is_bound_in names.now name.now) (function_in names.now name.now) (map (spec.judged_by names.now) es.now) }
{
    if names.is_bound(name) {
        nothing(Kind::ConflictingAttributes, arguments(names, es))
    } else {
        expanded(names, name, fact, es)
    }
}

/// A statement function with a list.
#[cycle(judge)]
#[tactic(auto, unfolding(crate::specs::FoundSteps::expanded_found))]
fn expanded(names: &Names, name: &[u8], fact: Fact, es: &[Expr]) -> Found
    ensures { result ≡ spec.expanded_found fact (function_in names.now name.now) (map (spec.judged_by names.now) es.now) }
{
    match names.function(name) {
        None => nothing(Kind::BadStatementFunction, arguments(names, es)),
        Some(basics) => value(fact.basic, listed_arguments(names, basics, es)),
    }
}

/// An element of an array with its subscripts. Section 5.4.
#[cycle(judge)]
#[tactic(auto, unfolding(crate::specs::FoundSteps::element_found))]
fn element(names: &Names, fact: Fact, es: &[Expr]) -> Found
    ensures { result ≡ spec.element_found fact (map (spec.judged_by names.now) es.now) }
{
    let subscripts = same_arguments(names, Basic::Integer, es.len(), es);
    let number = unless(es.len() == fact.rank, Kind::NumberOfSubscripts);
    place(fact.basic, lesser_of(subscripts, number))
}

/// The least row of the expressions of a list.
#[cycle(judge)]
#[tactic(auto, unfolding(crate::specs::FoundSteps::plain_found, crate::specs::FoundSteps::plain_onward))]
fn arguments(names: &Names, es: &[Expr]) -> Option<Kind>
    ensures { result ≡ spec.plain_found (map (spec.judged_by names.now) es.now) }
{
    let mut fault = None;
    for e in es {
        fault = lesser_of(fault, judge(names, e).fault);
    }
    fault
}

/// The least row of an actual argument of an external function or a dummy procedure. Section 15.9.3.
#[cycle(judge)]
#[tactic(auto)]
fn passed_argument(names: &Names, e: &Expr) -> Option<Kind>
    ensures { result ≡ lesser (spec.judged_by names.now e.now).fault (spec.passed_found (spec.judged_by names.now e.now).what) }
{
    let found = judge(names, e);
    lesser_of(found.fault, passed(found.what))
}

/// The least row of the actual arguments of an external function or a dummy procedure.
#[cycle(judge)]
#[tactic(auto, unfolding(crate::specs::FoundSteps::passing_found, crate::specs::FoundSteps::passing_onward))]
fn passed_arguments(names: &Names, es: &[Expr]) -> Option<Kind>
    ensures { result ≡ spec.passing_found (map (spec.judged_by names.now) es.now) }
{
    let mut fault = None;
    for e in es {
        fault = lesser_of(fault, passed_argument(names, e));
    }
    fault
}

/// The least row of a list where each operand is wanted to be of one type.
#[cycle(judge)]
#[tactic(auto, unfolding(crate::specs::FoundSteps::each_onward))]
fn each_argument(names: &Names, basic: Basic, es: &[Expr]) -> Option<Kind>
    ensures { result ≡ spec.each_onward basic None (map (spec.judged_by names.now) es.now) }
{
    let mut fault = None;
    for e in es {
        fault = lesser_of(fault, with_wanted(basic, judge(names, e)));
    }
    fault
}

/// The least row of a list where so many operands of one type are wanted.
#[cycle(judge)]
#[tactic(auto, unfolding(crate::specs::FoundSteps::same_found, crate::specs::FoundSteps::unwanted_found))]
fn same_arguments(names: &Names, basic: Basic, count: usize, es: &[Expr]) -> Option<Kind>
    ensures { result ≡ spec.same_found basic count (map (spec.judged_by names.now) es.now) }
{
    if es.len() == count {
        each_argument(names, basic, es)
    } else {
        lesser_of(Some(Kind::OperandTypes), arguments(names, es))
    }
}

/// The least row of a list where each operand is wanted to be of the type at its place.
#[cycle(judge)]
#[tactic(auto, unfolding(crate::specs::FoundSteps::paired_onward))]
fn paired_arguments(names: &Names, basics: &[Basic], es: &[Expr]) -> Option<Kind>
    ensures { result ≡ spec.paired_onward None basics.now (map (spec.judged_by names.now) es.now) }
{
    let mut fault = None;
    let mut later = basics;
    for e in es {
        let [basic, rest @ ..] = later else {
            return fault;
        };
        fault = lesser_of(fault, with_wanted(*basic, judge(names, e)));
        later = rest;
    }
    fault
}

/// The least row of a list where operands of these types are wanted.
#[cycle(judge)]
#[tactic(auto, unfolding(crate::specs::FoundSteps::listed_found, crate::specs::FoundSteps::unwanted_found))]
fn listed_arguments(names: &Names, basics: &[Basic], es: &[Expr]) -> Option<Kind>
    ensures { result ≡ spec.listed_found basics.now (map (spec.judged_by names.now) es.now) }
{
    if es.len() == basics.len() {
        paired_arguments(names, basics, es)
    } else {
        lesser_of(Some(Kind::OperandTypes), arguments(names, es))
    }
}
