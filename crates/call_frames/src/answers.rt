//! How a function goes on with the answer to its call (C89, 3.3.2.2 and 3.6.6.4).

ghost use Rattle.std.specs.Prelude.{◌≡◌, ◌<◌, ◌+◌, ◌^◌, Option};
ghost use Rattle.c_tree.specs.run_state.Units.{Units};
ghost use Rattle.c_tree.specs.Linking as linking;
ghost use Rattle.c_tree.specs.Steps as steps;
ghost use Rattle.c_tree.specs.World.{Transfer};
ghost use Rattle.item_deeds.specs.Deeds.{view_of, wants_of, world_of};
ghost use Rattle.item_deeds.specs.Forms.{SameForms};
ghost use Rattle.call_frames.specs.Entries.{onward, entered};

use c_tree::outcome::{CFault, CValue};
use item_deeds::{CallView, CallWants};
use run_bytes::RunBytes;

/// The view that goes on behind its call, once what is wanted of the answer is done. Whatever the units are and whichever transfer is in
/// progress, they stay as they are.
///
/// # Errors
/// `Disagree` where a number is wanted and none is given; the fault of the store.
#[tactic(auto, using(item_deeds::proofs::FormLaws::form_laws))]
pub fn taken(
    wants: CallWants,
    answer: Option<i32>,
    view: CallView,
    run: &mut RunBytes,
) -> Result<CallView, CFault>
    requires { view.position + 1 < 2 ^ 64 }
    ensures meaning { (units : Units) → (transfer : Option Transfer) → steps.taken (wants_of wants) answer (view_of view) (world_of run.old units transfer) ≡ onward (world_of run.new units transfer) result }
    ensures forms { SameForms run.old run.new }
{
    match (wants, answer) {
        (CallWants::Nothing, _) => Ok(view.past()),
        (CallWants::Value(place), Some(number)) => {
            run.store(place.at, place.access, CValue::Number(number))?;
            Ok(view.past())
        }
        (CallWants::Answer, Some(number)) => Ok(CallView {
            answer: Some(number),
            ..view.past()
        }),
        (CallWants::Value(_) | CallWants::Answer, None) => Err(CFault::Disagree),
    }
}

/// The view of a function that goes on with the answer to its call. Whatever the units are and whichever transfer is in progress, they
/// stay as they are.
///
/// # Errors
/// Those of `taken`.
#[tactic(auto, unfolding(c_tree::specs::Steps::resume))]
pub fn resume(view: CallView, answer: Option<i32>, run: &mut RunBytes) -> Result<CallView, CFault>
    requires { view.position + 1 < 2 ^ 64 }
    ensures meaning { (function : linking.Function) → (units : Units) → (transfer : Option Transfer) →
        steps.resume function (view_of view) answer (world_of run.old units transfer) ≡ entered (world_of run.new units transfer) result }
    ensures forms { SameForms run.old run.new }
{
    taken(view.wants, answer, view, run)
}
