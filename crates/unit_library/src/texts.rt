//! The functions of two texts that give a number (ANSI X3.9-1978, 6.3.5 and 15.10).

ghost use Rattle.std.specs.Prelude.{[], ◌∷◌, List, Option};
ghost use Rattle.c_tree.specs.World.{Gives};
ghost use Rattle.f2c_outside.specs.Table.{Row};
ghost use Rattle.library_calls.specs.Answers.{Answers};
ghost use Rattle.unit_library.specs.declared.transfers.TransferInProgress.{TransferInProgress};
ghost use Rattle.unit_library.specs.Functions.{text_builtin};
ghost use Rattle.unit_library.specs.Arguments.{front};
ghost use Rattle.unit_library.specs.Calls.{Calls};

use crate::arguments::argument;
use crate::endings::RunEnding;
use crate::functions::TextFunction;
use crate::replies::given;
use c_tree::outcome::{CFault, CValue};
use library_calls::{i_indx, l_ge, l_gt, l_le, l_lt, s_cmp};
use run_bytes::RunBytes;
use run_library::{CallBreak, LibraryReply};

/// The number that a function of two texts gives.
fn number_of_texts(
    function: TextFunction,
    run: &RunBytes,
    first: CValue,
    second: CValue,
    first_length: CValue,
    second_length: CValue,
) -> Result<i32, CFault>
    ensures { Answers Gives (text_builtin function) (first ∷ second ∷ first_length ∷ second_length ∷ []) run.now run.now result }
{
    match function {
        TextFunction::Compare => s_cmp(run, first, second, first_length, second_length),
        TextFunction::Index => i_indx(run, first, second, first_length, second_length),
        TextFunction::NotBelow => l_ge(run, first, second, first_length, second_length),
        TextFunction::Above => l_gt(run, first, second, first_length, second_length),
        TextFunction::NotAbove => l_le(run, first, second, first_length, second_length),
        TextFunction::Below => l_lt(run, first, second, first_length, second_length),
    }
}

/// A call of a function of two texts.
pub(crate) fn texts(
    function: TextFunction,
    values: &[CValue],
    run: &RunBytes,
) -> Result<LibraryReply<RunEnding>, CallBreak>
    ensures { (held : Option TransferInProgress) → (rows : List Row) → Calls (text_builtin function) (front 4 0 values.now) run.now run.now held held rows rows result }
{
    let first = argument(values, 0);
    let second = argument(values, 1);
    let first_length = argument(values, 2);
    let second_length = argument(values, 3);
    given(number_of_texts(function, run, first, second, first_length, second_length))
}
