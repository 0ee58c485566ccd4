//! What a statement on a unit answers (ANSI X3.9-1978, 12.10).

ghost use Rattle.std.specs.Prelude.{◌≡◌};
ghost use Rattle.unit_statements.specs.Statements.{answer_of, closed_answer};

use f2c_outside::unit_table::Closed;
use run_state::UnitRefusal;
use unit_answers::{CallEnd, refused};

/// 0 where the statement was done, else what its refusal gives. A list of these statements does not ask for the end of a file.
pub(crate) fn answer(
    unit: i32,
    on_error: i32,
    done: Result<(), UnitRefusal>,
) -> Result<i32, CallEnd>
    ensures { result ≡ answer_of unit on_error done }
{
    match done {
        Ok(()) => Ok(0),
        Err(refusal) => refused(unit, refusal, on_error, 0),
    }
}

/// The same of CLOSE: a unit that is not connected is closed already.
pub(crate) fn close_answer(
    unit: i32,
    on_error: i32,
    done: Result<Closed, UnitRefusal>,
) -> Result<i32, CallEnd>
    ensures { result ≡ closed_answer unit on_error done }
{
    match done {
        Ok(_) => Ok(0),
        Err(UnitRefusal::NotConnected) => Ok(0),
        Err(refusal) => refused(unit, refusal, on_error, 0),
    }
}
