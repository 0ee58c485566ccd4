//! The functions of numbers (ANSI X3.9-1978, 6.1.2.1 and 15.10; MIL-STD-1753).

ghost use Rattle.std.specs.Prelude.{[], ◌∷◌, List, Option};
ghost use Rattle.c_tree.specs.World.{Gives};
ghost use Rattle.c_tree.specs.Builtins as builtin;
ghost use Rattle.f2c_outside.specs.Table.{Row};
ghost use Rattle.library_calls.specs.Answers.{Answers};
ghost use Rattle.unit_library.specs.declared.transfers.TransferInProgress.{TransferInProgress};
ghost use Rattle.unit_library.specs.Functions.{number_builtin};
ghost use Rattle.unit_library.specs.Arguments.{front};
ghost use Rattle.unit_library.specs.Calls.{Calls};

use crate::arguments::argument;
use crate::endings::RunEnding;
use crate::functions::NumberFunction;
use crate::replies::given;
use c_tree::outcome::{CFault, CValue};
use library_calls::{
    b_clr, b_set, b_test, i_and, i_dim, i_eor, i_not, i_or, i_shft, i_sign, pow_ii,
};
use run_bytes::RunBytes;
use run_library::{CallBreak, LibraryReply};

/// The number that a function of two numbers gives.
fn number_of(
    function: NumberFunction,
    run: &RunBytes,
    first: CValue,
    second: CValue,
) -> Result<i32, CFault>
    ensures { Answers Gives (number_builtin function) (first ∷ second ∷ []) run.now run.now result }
{
    match function {
        NumberFunction::Power => pow_ii(run, first, second),
        NumberFunction::Sign => i_sign(run, first, second),
        NumberFunction::Difference => i_dim(run, first, second),
        NumberFunction::EitherBit => i_or(run, first, second),
        NumberFunction::BothBits => i_and(run, first, second),
        NumberFunction::OneBit => i_eor(run, first, second),
        NumberFunction::Shift => i_shft(run, first, second),
        NumberFunction::BitTest => b_test(run, first, second),
        NumberFunction::BitSet => b_set(run, first, second),
        NumberFunction::BitClear => b_clr(run, first, second),
    }
}

/// A call of a function of two numbers.
pub(crate) fn numbers(
    function: NumberFunction,
    values: &[CValue],
    run: &RunBytes,
) -> Result<LibraryReply<RunEnding>, CallBreak>
    ensures { (held : Option TransferInProgress) → (rows : List Row) → Calls (number_builtin function) (front 2 0 values.now) run.now run.now held held rows rows result }
{
    let first = argument(values, 0);
    let second = argument(values, 1);
    given(number_of(function, run, first, second))
}

/// A call of NOT.
pub(crate) fn complement(
    values: &[CValue],
    run: &RunBytes,
) -> Result<LibraryReply<RunEnding>, CallBreak>
    ensures { (held : Option TransferInProgress) → (rows : List Row) → Calls builtin.i_not (front 1 0 values.now) run.now run.now held held rows rows result }
{
    let number = argument(values, 0);
    given(i_not(run, number))
}
