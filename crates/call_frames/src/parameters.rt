//! The parameters of a function and the values of the arguments (C89, 3.3.2.2).

ghost use Rattle.std.specs.Prelude.{◌≡◌, ◌<◌, ◌≤◌, ◌+◌, ◌^◌, ◌++◌, true, Some, length, map, take, drop, slice_get, slice_set};
ghost use Rattle.c_tree.specs.Declarations.{parameter_access, parameter_object};
ghost use Rattle.c_tree.specs.Steps as steps;
ghost use Rattle.run_bytes.specs.Accesses.{access_of};
ghost use Rattle.item_deeds.specs.Forms.{SameForms};

use c_tree::outcome::CValue;
use c_tree::types::ParameterType;
use run_bytes::{AccessType, PointedType, RunBytes};

/// Whether a value is of a parameter's kind; null is a pointer and a function.
fn fits(of: ParameterType, value: CValue) -> bool
    ensures { result ≡ steps.fits of value }
{
    match of {
        ParameterType::Length | ParameterType::Int => matches!(value, CValue::Number(_)),
        ParameterType::Function(_) => matches!(value, CValue::Function(_) | CValue::Null),
        ParameterType::Integers | ParameterType::Logicals | ParameterType::Chars => {
            matches!(value, CValue::Pointer { .. } | CValue::Null)
        }
    }
}

/// Whether the values agree with the parameters in number and kind.
pub(crate) fn all_fit(parameters: &[ParameterType], values: &[CValue]) -> bool
    ensures { result ≡ steps.all_fit parameters.now values.now }
{
    match parameters {
        [] => values.is_empty(),
        [of, types @ ..] => match values {
            [] => false,
            [value, later @ ..] => fits(*of, *value) && all_fit(types, later),
        },
    }
}

/// By what type a parameter is read and stored.
fn access(of: ParameterType) -> AccessType
    ensures { access_of result ≡ parameter_access of }
{
    match of {
        ParameterType::Integers | ParameterType::Logicals => {
            AccessType::Pointer(PointedType::Number)
        }
        ParameterType::Chars => AccessType::Pointer(PointedType::Char),
        ParameterType::Length | ParameterType::Int => AccessType::Number,
        ParameterType::Function(_) => AccessType::Function,
    }
}

/// Gives a parameter whose object is made anew the value of its argument.
#[tactic(auto, using(item_deeds::proofs::FormLaws::form_laws))]
fn bind_one(object: usize, of: ParameterType, value: CValue, run: &mut RunBytes)
    requires fits { steps.fits of value ≡ true }
    requires anew { slice_get run.old object ≡ Some (parameter_object of) }
    ensures bound { run.new ≡ slice_set run.old object (steps.bound value (parameter_object of)) }
    ensures forms { SameForms run.old run.new }
{
    let at = CValue::Pointer { object, offset: 0 };
    match run.store(at, access(of), value) {
        Ok(()) => (),
        Err(_) => unreachable!(),
    }
}

/// Gives the parameters, whose objects stand one behind the other and are made anew, the values of the arguments.
pub(crate) fn bind(
    frame: usize,
    parameters: &[ParameterType],
    values: &[CValue],
    run: &mut RunBytes,
)
    requires few { frame + length parameters.now < 2 ^ 64 }
    requires fit { steps.all_fit parameters.now values.now ≡ true }
    requires anew { take (length parameters.now) (drop frame run.old) ≡ map parameter_object parameters.now }
    requires within { frame ≤ length run.old }
    ensures bound { run.new ≡ take frame run.old ++ steps.all_bound values.now (drop frame run.old) }
    ensures forms { SameForms run.old run.new }
{
    for (number, of) in parameters.iter().enumerate() {
        bind_one(frame + number, *of, values[number], run);
    }
}
