//! What the arguments of a function stand for (C89, 3.3.2.2).

ghost use Rattle.std.specs.Prelude.{◌≡◌, ◌<◌, length, IfOk};
ghost use Rattle.c_tree.specs.Objects as objects;
ghost use Rattle.c_tree.specs.LibraryArguments as arguments;
ghost use Rattle.run_bytes.specs.Answers.{answered};
ghost use Rattle.library_calls.specs.Arguments as found;

use c_tree::outcome::{CFault, CValue};
use run_bytes::{AccessType, RunBytes};

/// The number that a value is.
pub(crate) fn as_number(value: CValue) -> Result<i32, CFault>
    ensures { answered (λ number. number) result ≡ objects.as_number value }
{
    match value {
        CValue::Number(number) => Ok(number),
        _ => Err(CFault::Kind),
    }
}

/// The number that a pointer points to.
pub(crate) fn number_through(run: &RunBytes, pointer: CValue) -> Result<i32, CFault>
    ensures { answered (λ number. number) result ≡ arguments.number_through run.now pointer }
{
    match run.fetch(pointer, AccessType::Number) {
        Ok(typed) => as_number(typed.value),
        Err(fault) => Err(fault),
    }
}

/// A length or a count, which is not negative.
pub(crate) fn count_from(number: i32) -> Result<usize, CFault>
    ensures count { answered (λ count. count) result ≡ arguments.count_from number }
    ensures small { IfOk result (λ count. count < 2147483648) }
{
    if number < 0 {
        Err(CFault::Library)
    } else {
        Ok(number.unsigned_abs() as usize)
    }
}

/// The length that a value is.
pub(crate) fn length_from(value: CValue) -> Result<usize, CFault>
    ensures count { answered (λ count. count) result ≡ arguments.length_from value }
    ensures small { IfOk result (λ count. count < 2147483648) }
{
    match as_number(value) {
        Ok(number) => count_from(number),
        Err(fault) => Err(fault),
    }
}

/// Two texts, by pointers to them and their lengths.
pub(crate) fn two_texts(
    run: &RunBytes,
    first: CValue,
    second: CValue,
    first_length: CValue,
    second_length: CValue,
) -> Result<(&[u8], &[u8]), CFault>
    ensures texts { answered (λ texts. (texts.0.now, texts.1.now)) result ≡ found.two_texts run.now first second first_length second_length }
    ensures short { IfOk result (λ texts. length texts.0.now < 2147483648) }
{
    let size = length_from(first_length)?;
    let count = length_from(second_length)?;
    let left = run.text(first, size)?;
    let right = run.text(second, count)?;
    Ok((left, right))
}

/// Two numbers, by pointers to them.
pub(crate) fn two_numbers(
    run: &RunBytes,
    first: CValue,
    second: CValue,
) -> Result<(i32, i32), CFault>
    ensures { answered (λ numbers. (numbers.0, numbers.1)) result ≡ found.two_numbers run.now first second }
{
    let left = number_through(run, first)?;
    let right = number_through(run, second)?;
    Ok((left, right))
}
