//! Numbers, lengths and counts among the arguments of a call, and in the fields of its list (C89, 3.3.2.2).

ghost use Rattle.std.specs.Prelude.{◌≡◌, ◌<◌, IfOk};
ghost use Rattle.c_tree.specs.Objects as objects;
ghost use Rattle.c_tree.specs.LibraryArguments as arguments;
ghost use Rattle.run_bytes.specs.Answers.{answered};

use c_tree::outcome::{CFault, CValue};
use run_bytes::{AccessType, RunBytes};

/// The number that a value is.
///
/// # Errors
/// `Kind` for another value.
pub fn as_number(value: CValue) -> Result<i32, CFault>
    ensures { answered (λ number. number) result ≡ objects.as_number value }
{
    match value {
        CValue::Number(number) => Ok(number),
        _ => Err(CFault::Kind),
    }
}

/// The number that a pointer points to.
///
/// # Errors
/// The fault of the access.
pub fn number_through(run: &RunBytes, pointer: CValue) -> Result<i32, CFault>
    ensures { answered (λ number. number) result ≡ arguments.number_through run.now pointer }
{
    match run.fetch(pointer, AccessType::Number) {
        Ok(typed) => as_number(typed.value),
        Err(fault) => Err(fault),
    }
}

/// A length or a count.
///
/// # Errors
/// `Library` for a negative number.
pub fn count_from(number: i32) -> Result<usize, CFault>
    ensures count { answered (λ count. count) result ≡ arguments.count_from number }
    ensures small { IfOk result (λ count. count < 2147483648) }
{
    if number < 0 {
        Err(CFault::Library)
    } else {
        Ok(number.unsigned_abs() as usize)
    }
}

/// The length that a value is.
///
/// # Errors
/// `Kind` for a value that is no number, and `Library` for a negative one.
pub fn length_from(value: CValue) -> Result<usize, CFault>
    ensures count { answered (λ count. count) result ≡ arguments.length_from value }
    ensures small { IfOk result (λ count. count < 2147483648) }
{
    match as_number(value) {
        Ok(number) => count_from(number),
        Err(fault) => Err(fault),
    }
}
