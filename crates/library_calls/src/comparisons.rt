//! The functions of two texts that give a number (ANSI X3.9-1978, 6.3.5 and 15.10). Each takes pointers to the texts and the lengths of
//! both, and has a fault where one of these is none: `Kind` for a length that is no number, `Library` for a negative one, and what
//! `RunBytes::text` answers of a text.

ghost use Rattle.std.specs.Prelude.{[], ◌∷◌};
ghost use Rattle.c_tree.specs.World.{Gives};
ghost use Rattle.c_tree.specs.Builtins as builtin;
ghost use Rattle.library_calls.specs.Answers.{Answers};

use crate::arguments::two_texts;
use c_tree::outcome::{CFault, CValue};
use library_texts::{
    compare_texts, index_of, lexically_above, lexically_below, lexically_not_above,
    lexically_not_below,
};
use run_bytes::RunBytes;

/// -1 where the first text is before the second, 0 where they are equal, else 1 (6.3.5).
///
/// # Errors
/// The fault of an argument.
pub fn s_cmp(
    run: &RunBytes,
    first: CValue,
    second: CValue,
    first_length: CValue,
    second_length: CValue,
) -> Result<i32, CFault>
    ensures { Answers Gives builtin.s_cmp (first ∷ second ∷ first_length ∷ second_length ∷ []) run.now run.now result }
{
    match two_texts(run, first, second, first_length, second_length) {
        Ok((left, right)) => Ok(compare_texts(left, right)),
        Err(fault) => Err(fault),
    }
}

/// LGE (15.10): 1 where the first text is equal to the second or behind it, else 0.
///
/// # Errors
/// The fault of an argument.
pub fn l_ge(
    run: &RunBytes,
    first: CValue,
    second: CValue,
    first_length: CValue,
    second_length: CValue,
) -> Result<i32, CFault>
    ensures { Answers Gives builtin.l_ge (first ∷ second ∷ first_length ∷ second_length ∷ []) run.now run.now result }
{
    match two_texts(run, first, second, first_length, second_length) {
        Ok((left, right)) => Ok(lexically_not_below(left, right)),
        Err(fault) => Err(fault),
    }
}

/// LGT (15.10): 1 where the first text is behind the second, else 0.
///
/// # Errors
/// The fault of an argument.
pub fn l_gt(
    run: &RunBytes,
    first: CValue,
    second: CValue,
    first_length: CValue,
    second_length: CValue,
) -> Result<i32, CFault>
    ensures { Answers Gives builtin.l_gt (first ∷ second ∷ first_length ∷ second_length ∷ []) run.now run.now result }
{
    match two_texts(run, first, second, first_length, second_length) {
        Ok((left, right)) => Ok(lexically_above(left, right)),
        Err(fault) => Err(fault),
    }
}

/// LLE (15.10): 1 where the first text is equal to the second or before it, else 0.
///
/// # Errors
/// The fault of an argument.
pub fn l_le(
    run: &RunBytes,
    first: CValue,
    second: CValue,
    first_length: CValue,
    second_length: CValue,
) -> Result<i32, CFault>
    ensures { Answers Gives builtin.l_le (first ∷ second ∷ first_length ∷ second_length ∷ []) run.now run.now result }
{
    match two_texts(run, first, second, first_length, second_length) {
        Ok((left, right)) => Ok(lexically_not_above(left, right)),
        Err(fault) => Err(fault),
    }
}

/// LLT (15.10): 1 where the first text is before the second, else 0.
///
/// # Errors
/// The fault of an argument.
pub fn l_lt(
    run: &RunBytes,
    first: CValue,
    second: CValue,
    first_length: CValue,
    second_length: CValue,
) -> Result<i32, CFault>
    ensures { Answers Gives builtin.l_lt (first ∷ second ∷ first_length ∷ second_length ∷ []) run.now run.now result }
{
    match two_texts(run, first, second, first_length, second_length) {
        Ok((left, right)) => Ok(lexically_below(left, right)),
        Err(fault) => Err(fault),
    }
}

/// INDEX (15.10): the first place, from 1, at which the second text stands in the first, or 0.
///
/// # Errors
/// The fault of an argument.
pub fn i_indx(
    run: &RunBytes,
    first: CValue,
    second: CValue,
    first_length: CValue,
    second_length: CValue,
) -> Result<i32, CFault>
    ensures { Answers Gives builtin.i_indx (first ∷ second ∷ first_length ∷ second_length ∷ []) run.now run.now result }
{
    match two_texts(run, first, second, first_length, second_length) {
        Ok((left, right)) => Ok(index_of(left, right) as i32),
        Err(fault) => Err(fault),
    }
}
