//! What single steps do.

ghost use Rattle.std.specs.Prelude.{◌≡◌, option_map};
ghost use Rattle.lowered_tree.specs.Shapes.{datum_of, pure_of, pures_of, acting_of, step_of};
ghost use Rattle.c_emit.specs.Calls.{unit_of};
ghost use Rattle.library_functions.specs.Described.{described};
ghost use Rattle.main_translation.specs.Contents.{begins_output, takes_item, ends_output, stops_run, is_function, computes};
ghost use Rattle.unit_contents.specs.Parts as spec;

use library_functions::{LibraryFunction, library_function};
use lowered_tree::{Acting, Literal, Pure, Step};

/// The value of a literal that is an integer.
#[tactic(auto, unfolding(crate::specs::Parts::integer_in))]
fn integer_in(literal: &Literal) -> Option<i32>
    ensures { result ≡ spec.integer_in (datum_of literal.now) }
{
    match literal {
        Literal::Integer(value) => Some(*value),
        _ => None,
    }
}

/// The value that is written, if it is an integer.
#[tactic(auto, using(crate::proofs::StepForms::integer_forms))]
fn integer_of(value: &Pure) -> Option<i32>
    ensures { result ≡ spec.integer_of (pure_of value.now) }
{
    match value {
        Pure::Constant(literal) => integer_in(literal),
        _ => None,
    }
}

/// The unit of an output, which its operands name.
#[tactic(auto, using(crate::proofs::StepForms::unit_forms))]
fn unit_of(operands: &[Pure]) -> Option<i32>
    ensures { result ≡ unit_of (pures_of operands.now) }
{
    match operands {
        [operand] => integer_of(operand),
        _ => None,
    }
}

/// The unit that an act of a transfer begins an output on.
#[tactic(auto, unfolding(crate::specs::Parts::unit_by))]
fn unit_by(acting: &Acting, operands: &[Pure]) -> Option<i32>
    ensures { result ≡ spec.unit_by (acting_of acting.now) (pures_of operands.now) }
{
    match acting {
        Acting::Starts(_, _, _) => unit_of(operands),
        _ => None,
    }
}

/// The unit that a step begins an output on.
#[tactic(auto, unfolding(crate::specs::Parts::begun_unit))]
pub(crate) fn begun_unit(step: &Step) -> Option<i32>
    ensures { result ≡ spec.begun_unit (step_of step.now) }
{
    match step {
        Step::Acts(acting, operands, _) => unit_by(acting, operands.as_slice()),
        _ => None,
    }
}

/// Whether a step begins an output.
#[tactic(auto, unfolding(main_translation::specs::Contents::begins_output))]
pub(crate) fn begins_output(step: &Step) -> bool
    ensures { result ≡ begins_output (step_of step.now) }
{
    match step {
        Step::Acts(acting, _, _) => matches!(acting, Acting::Starts(_, _, _)),
        _ => false,
    }
}

/// Whether a step takes an item of an output.
#[tactic(auto, unfolding(main_translation::specs::Contents::takes_item))]
pub(crate) fn takes_item(step: &Step) -> bool
    ensures { result ≡ takes_item (step_of step.now) }
{
    match step {
        Step::Acts(acting, _, _) => matches!(acting, Acting::Takes),
        _ => false,
    }
}

/// Whether a step ends an output.
#[tactic(auto, unfolding(main_translation::specs::Contents::ends_output))]
pub(crate) fn ends_output(step: &Step) -> bool
    ensures { result ≡ ends_output (step_of step.now) }
{
    match step {
        Step::Acts(acting, _, _) => matches!(acting, Acting::Finishes),
        _ => false,
    }
}

/// Whether a step ends the run.
#[tactic(auto, unfolding(main_translation::specs::Contents::stops_run))]
pub(crate) fn stops_run(step: &Step) -> bool
    ensures { result ≡ stops_run (step_of step.now) }
{
    matches!(step, Step::Halt(_))
}

/// Whether a function of the library is the same as another, where there is that.
#[tactic(auto, unfolding(main_translation::specs::Contents::is_function))]
fn is_function(one: &LibraryFunction, other: Option<LibraryFunction>) -> bool
    ensures { result ≡ is_function (described one.now) (option_map described other) }
{
    match other {
        Some(other) => one.name == other.name,
        None => false,
    }
}

/// Whether a step computes by a function of the library.
#[tactic(auto, unfolding(main_translation::specs::Contents::computes))]
pub(crate) fn computes(one: &LibraryFunction, step: &Step) -> bool
    ensures { result ≡ computes (described one.now) (step_of step.now) }
{
    match step {
        Step::Compute(_, function, _) => is_function(one, library_function(*function)),
        _ => false,
    }
}
