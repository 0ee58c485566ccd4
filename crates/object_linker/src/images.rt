//! Objects that last, by the bytes that they start with (C89, 3.5.7).

ghost use Rattle.std.specs.Prelude.{◌≡◌, ◌+◌, ◌*◌, [], length, IfOk};
ghost use Rattle.c_tree.specs.Declarations as tree;
ghost use Rattle.linked_programs.specs.LinkedPrograms.{object_of};

use c_tree::expression::Text;
use linked_programs::LinkedObject;
use plain_data::Items;
use run_bytes::ObjectKind;
use std::alloc::{AllocError, Global};

/// Bytes with zero bytes behind them, in all so many.
pub fn image(alloc: Global, size: usize, bytes: &[u8]) -> Result<LinkedObject, AllocError>
    ensures { IfOk result (λ made. object_of made ≡ tree.filled size bytes.now) }
{
    Ok(LinkedObject::Image {
        size,
        bytes: Items::from_slice(alloc, bytes)?,
    })
}

/// Zero bytes, so many.
pub fn zero_bytes(size: usize) -> LinkedObject
    ensures { object_of result ≡ tree.filled size [] }
{
    LinkedObject::Plain(ObjectKind::Bytes {
        len: size,
        set: true,
    })
}

/// A number that starts with a value, or with 0.
pub fn number_image(alloc: Global, value: Option<i32>) -> Result<LinkedObject, AllocError>
    ensures { IfOk result (λ made. object_of made ≡ tree.filled 4 (tree.number_or_zero value)) }
{
    match value {
        None => Ok(zero_bytes(4)),
        Some(number) => image(alloc, 4, &number.to_le_bytes()),
    }
}

/// The bytes of numbers, one after the other.
#[tactic(auto, using(std::proofs::lemmas::Grind::common_steps))]
fn number_bytes(alloc: Global, numbers: &[i32]) -> Result<Items<u8>, AllocError>
    ensures { IfOk result (λ bytes. bytes ≡ tree.number_bytes numbers.now) }
{
    let mut bytes = Vec::new(alloc);
    for number in numbers {
        bytes.extend_from_slice(&number.to_le_bytes())?;
    }
    Ok(Items::from_vec(bytes))
}

/// Numbers with zero bytes behind them, in all so many bytes.
pub fn numbers_of_size(
    alloc: Global,
    size: usize,
    numbers: &[i32],
) -> Result<LinkedObject, AllocError>
    ensures { IfOk result (λ made. object_of made ≡ tree.filled size (tree.number_bytes numbers.now)) }
{
    Ok(LinkedObject::Image {
        size,
        bytes: number_bytes(alloc, numbers)?,
    })
}

/// So many numbers that start with values, or with 0.
pub fn numbers_image(
    alloc: Global,
    count: u32,
    values: &Option<Items<i32>>,
) -> Result<LinkedObject, AllocError>
    ensures { IfOk result (λ made. object_of made ≡ tree.filled (4 * count) (tree.numbers_or_none values.now)) }
{
    let size = 4 * count as usize;
    match values {
        None => Ok(zero_bytes(size)),
        Some(values) => numbers_of_size(alloc, size, values.as_slice()),
    }
}

/// The bytes of a text, if there is one.
fn bytes_or_none(text: &Option<Text>) -> &[u8]
    ensures { result.now ≡ tree.bytes_or_none text.now }
{
    match text {
        None => &[],
        Some(text) => text.as_slice(),
    }
}

/// The length of a text with a zero byte.
fn with_zero(text: &[u8]) -> Result<usize, AllocError>
    ensures { IfOk result (λ size. size ≡ length text.now + 1) }
{
    text.len().checked_add(1).ok_or(AllocError)
}

/// A string: its bytes and a zero byte.
pub fn string_image(alloc: Global, bytes: &[u8]) -> Result<LinkedObject, AllocError>
    ensures { IfOk result (λ made. object_of made ≡ tree.string_object bytes.now) }
{
    image(alloc, with_zero(bytes)?, bytes)
}

/// A `char` array that starts with a string, of a length that is written or that the string gives.
pub fn text_image(
    alloc: Global,
    size: Option<u32>,
    text: &Option<Text>,
) -> Result<LinkedObject, AllocError>
    ensures { IfOk result (λ made. object_of made ≡ tree.filled (tree.text_size size text.now) (tree.bytes_or_none text.now)) }
{
    let bytes = bytes_or_none(text);
    match size {
        Some(size) => image(alloc, size as usize, bytes),
        None => image(alloc, with_zero(bytes)?, bytes),
    }
}
