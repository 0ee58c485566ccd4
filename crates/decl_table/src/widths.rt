//! The character units of names by their types. Section 8.4.2.

ghost use Rattle.std.specs.Prelude.{◌≡◌, IfOk, option_map};
ghost use Rattle.name_facts.specs.GivenFacts.{datum_of};
ghost use Rattle.decl_table.specs.UnitFacts as spec;
ghost use Rattle.decl_table.specs.UnitFacts.{IsWidthOf, IsLengthOf};

use constant_values::{Constants, constant_value};
use declared_types::DeclaredType;
use f_tree::{Basic, LengthSpec};
use name_facts::ConstantValue;
use std::alloc::{AllocError, Global};

/// The character units that a value is worth; none for what is no integer.
#[tactic(auto, unfolding(crate::specs::UnitFacts::measured, name_facts::specs::GivenFacts::datum_of))]
fn measured(value: Option<ConstantValue>) -> Option<u32>
    ensures { result ≡ spec.measured (option_map datum_of value) }
{
    match value {
        Some(ConstantValue::Integer(number)) => Some(number.unsigned_abs()),
        Some(ConstantValue::Logical(_)) => None,
        Some(ConstantValue::Text(_)) => None,
        Some(ConstantValue::Label(_)) => None,
        None => None,
    }
}

/// The number that a length is worth; none for `(*)` and for what is no constant integer.
fn length_value(
    alloc: Global,
    constants: &Constants,
    length: &LengthSpec,
) -> Result<Option<u32>, AllocError>
    ensures { IfOk result (λ width. IsLengthOf constants.now length.now width) }
{
    match length {
        LengthSpec::Star => Ok(None),
        LengthSpec::Value(e) => Ok(measured(constant_value(alloc, constants, e)?)),
    }
}

/// The character units of one element of a type, given the constants that a length may name: the length of what is of type CHARACTER, and 4
/// for other types. An error where memory ran out.
pub fn width_by(
    alloc: Global,
    constants: &Constants,
    typed: DeclaredType,
) -> Result<Option<u32>, AllocError>
    ensures { IfOk result (λ width. IsWidthOf constants.now typed.entry width) }
{
    match typed.basic {
        Basic::Character => match typed.length {
            Some(length) => length_value(alloc, constants, length),
            None => Ok(Some(1)),
        },
        Basic::Integer | Basic::Logical | Basic::Untyped => Ok(Some(4)),
    }
}
