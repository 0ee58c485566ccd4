//! How a function begins (C89, 3.1.2.4, 3.3.2.2 and 3.7.1).

ghost use Rattle.std.specs.Prelude.{◌≡◌, ◌<◌, ◌≤◌, ◌+◌, ◌^◌, ◌++◌, ℕ, Option, length, take, drop};
ghost use Rattle.c_tree.specs.run_state.Units.{Units};
ghost use Rattle.c_tree.specs.Steps as steps;
ghost use Rattle.c_tree.specs.World.{Transfer};
ghost use Rattle.linked_programs.specs.LinkedPrograms.{function_of};
ghost use Rattle.item_deeds.specs.Deeds.{view_of, world_of};
ghost use Rattle.item_deeds.specs.Forms.{forms, SameForms};
ghost use Rattle.call_frames.specs.Entries.{entered};
ghost use Rattle.call_frames.specs.Frames.{HasFrame};

use crate::parameters::{all_fit, bind};
use c_tree::outcome::{CFault, CValue};
use item_deeds::{CallView, CallWants};
use linked_programs::LinkedFunction;
use run_bytes::RunBytes;

/// Makes so many objects from one on ones of which nothing is set.
fn clear(frame: usize, count: usize, run: &mut RunBytes)
    requires few { frame + count < 2 ^ 64 }
    requires within { frame + count ≤ length run.old }
    ensures { run.new ≡ take frame run.old ++ (forms (take count (drop frame run.old)) ++ drop count (drop frame run.old)) }
{
    for number in 0..count {
        run.unset(frame + number);
    }
}

/// The view of a function that begins.
fn first_view() -> CallView
    ensures { view_of result ≡ steps.first_view }
{
    CallView {
        position: 0,
        wants: CallWants::Nothing,
        answer: None,
    }
}

/// A function begins: its frame is made anew, and its parameters have the values of the arguments. Whatever the units are and whichever
/// transfer is in progress, they stay as they are.
///
/// # Errors
/// `Disagree` where the arguments do not agree with the parameters in number and kind. Nothing is changed then.
pub fn start(
    function: &LinkedFunction,
    values: &[CValue],
    run: &mut RunBytes,
) -> Result<CallView, CFault>
    requires { HasFrame function.now run.old }
    ensures meaning { (own number : ℕ) → (units : Units) → (transfer : Option Transfer) →
        steps.start (function_of own function.now) number values.now (world_of run.old units transfer) ≡ entered (world_of run.new units transfer) result }
    ensures forms { SameForms run.old run.new }
{
    if !all_fit(function.parameters.as_slice(), values) {
        return Err(CFault::Disagree);
    }
    clear(function.frame, function.fresh.len(), run);
    bind(function.frame, function.parameters.as_slice(), values, run);
    Ok(first_view())
}
