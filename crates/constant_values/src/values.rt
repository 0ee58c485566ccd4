//! Values, copied and taken apart.

ghost use Rattle.std.specs.Prelude.{◌≡◌, IfOk, option_map, Some};
ghost use Rattle.f_tree.specs.Values.{IsInt, IsLog};
ghost use Rattle.name_facts.specs.GivenFacts.{datum_of};

use name_facts::ConstantValue;
use plain_data::Items;
use std::alloc::{AllocError, Global};

/// A copy of a value. An error where memory ran out.
pub fn copied(alloc: Global, value: &ConstantValue) -> Result<ConstantValue, AllocError>
    ensures { IfOk result (λ copy. copy ≡ value.now) }
{
    match value {
        ConstantValue::Integer(number) => Ok(ConstantValue::Integer(*number)),
        ConstantValue::Logical(truth) => Ok(ConstantValue::Logical(*truth)),
        ConstantValue::Text(text) => Ok(ConstantValue::Text(Items::from_slice(
            alloc,
            text.as_slice(),
        )?)),
        ConstantValue::Label(label) => Ok(ConstantValue::Label(*label)),
    }
}

/// A copy of a value that may be there. An error where memory ran out.
pub fn copied_if(
    alloc: Global,
    value: Option<&ConstantValue>,
) -> Result<Option<ConstantValue>, AllocError>
    ensures { IfOk result (λ copy. copy ≡ option_map (λ v. v.now) value.entry) }
{
    match value {
        Some(value) => Ok(Some(copied(alloc, value)?)),
        None => Ok(None),
    }
}

/// A text as a value. An error where memory ran out.
#[tactic(auto, unfolding(name_facts::specs::GivenFacts::datum_of))]
pub(crate) fn text_value(alloc: Global, text: &[u8]) -> Result<Option<ConstantValue>, AllocError>
    ensures { IfOk result (λ v. v ≡ Some (ConstantValue.Text text.now)) }
{
    Ok(Some(ConstantValue::Text(Items::from_slice(alloc, text)?)))
}

/// An integer as a value.
#[tactic(auto, unfolding(name_facts::specs::GivenFacts::datum_of))]
pub(crate) fn integer(number: Option<i32>) -> Option<ConstantValue>
    ensures { option_map datum_of result ≡ option_map IsInt number }
{
    match number {
        Some(number) => Some(ConstantValue::Integer(number)),
        None => None,
    }
}

/// A truth value as a value.
#[tactic(auto, unfolding(name_facts::specs::GivenFacts::datum_of))]
pub(crate) fn logical(truth: Option<bool>) -> Option<ConstantValue>
    ensures { option_map datum_of result ≡ option_map IsLog truth }
{
    match truth {
        Some(truth) => Some(ConstantValue::Logical(truth)),
        None => None,
    }
}
