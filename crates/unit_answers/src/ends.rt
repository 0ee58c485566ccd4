//! What ends a call.

ghost use Rattle.std.specs.Prelude.{◌≡◌};
ghost use Rattle.unit_answers.specs.Answers.{numbered_answer, refused_answer};

use c_tree::outcome::CFault;
use run_state::UnitRefusal;

/// Why a call gives its caller no number.
#[derive(Clone, Copy, Debug, PartialEq, Eq)]
pub enum CallEnd {
    /// By a fault of the subset.
    Fault(CFault),
    /// The run ends with this number of an input or output statement, for which its list does not ask.
    Ended(i32),
    /// The device of this unit failed.
    Device(i32),
}

/// What a call answers whose statement gives a number: the number where the list asks for it, by the field of the end of the file for a
/// negative number and by that of an error for another; else the run ends.
pub fn numbered(number: i32, on_error: i32, on_end: i32) -> Result<i32, CallEnd>
    ensures { result ≡ numbered_answer number on_error on_end }
{
    let asked = if number < 0 { on_end } else { on_error };
    if asked == 0 {
        Err(CallEnd::Ended(number))
    } else {
        Ok(number)
    }
}

/// What a call answers whose statement on a unit is refused.
pub fn refused(unit: i32, refusal: UnitRefusal, on_error: i32, on_end: i32) -> Result<i32, CallEnd>
    ensures { result ≡ refused_answer unit refusal on_error on_end }
{
    match refusal {
        UnitRefusal::NotConnected => numbered(6, on_error, on_end),
        UnitRefusal::NotOffered => numbered(7, on_error, on_end),
        UnitRefusal::Taken => numbered(8, on_error, on_end),
        UnitRefusal::PastEnd => numbered(9, on_error, on_end),
        UnitRefusal::Failed => Err(CallEnd::Device(unit)),
    }
}
