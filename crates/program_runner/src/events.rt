//! What the next step of an active function does, calls of the library among it (C89, 3.6).

ghost use Rattle.std.specs.Prelude.{◌≡◌, ℕ, ◌<◌, ◌≤◌, ◌+◌, ◌^◌, List, Option, Ok, IfOk, length, take, slice_get};
ghost use Rattle.c_tree.specs.run_state.Units.{Units};
ghost use Rattle.c_tree.specs.run_state.Endings.{Ending};
ghost use Rattle.c_tree.specs.declared.outcome.CValue.{CValue};
ghost use Rattle.c_tree.specs.Objects.{Object};
ghost use Rattle.c_tree.specs.World.{Transfer};
ghost use Rattle.c_tree.specs.Builtins.{signatures};
ghost use Rattle.c_tree.specs.Linking as linking;
ghost use Rattle.c_tree.specs.Steps as steps;
ghost use Rattle.linked_terms.specs.LinkedItems.{flat_of};
ghost use Rattle.linked_programs.specs.LinkedPrograms.{function_of};
ghost use Rattle.item_deeds.specs.Deeds.{view_of, wants_of, world_of, argument_count};
ghost use Rattle.item_deeds.specs.Calls.{call_by, item_call, next_call};
ghost use Rattle.item_deeds.specs.Forms.{SameForms};
ghost use Rattle.run_library.specs.Replies.{reply_of};
ghost use Rattle.run_library.specs.Room as rooms;
ghost use Rattle.program_runner.specs.Signatures.{Allows};
ghost use Rattle.program_runner.specs.UnitsLeft.{LeftByStep, CountsIn};
ghost use Rattle.program_runner.specs.Events.{event_of, broken_of, StepsBy, ToldOfStep, UncountedInStep, IsCalled, HasRoom};

use crate::signatures::allowed;
use c_tree::outcome::CValue;
use c_tree::types::ResultType;
use call_frames::taken;
use item_deeds::{CallView, CallWants, Deed, perform};
use linked_programs::LinkedFunction;
use linked_terms::LinkedItem;
use run_bytes::RunBytes;
use run_library::{CallBreak, Library, LibraryReply, RunBreak};

/// What a step of a function does.
#[derive(Drop)]
pub(crate) enum StepEvent<E: Drop> {
    /// The function goes on.
    Goes(CallView),
    /// The run ends.
    Stops {
        /// The view at the end.
        view: CallView,
        /// How it ends.
        ending: E,
    },
    /// A function of the program is called.
    Calls {
        /// The view that waits.
        view: CallView,
        /// The number of the function.
        number: usize,
        /// How many arguments it is given.
        count: usize,
    },
    /// The function answers its caller.
    Answers(Option<i32>),
    /// The run cannot go on.
    Breaks(RunBreak),
}

/// Why a step has no event.
#[derive(Clone, Copy, Debug, PartialEq, Eq)]
pub(crate) enum StepFailure {
    /// The device of this unit failed.
    Device(i32),
    /// A call of the library was to count more than 64 bits tell.
    Uncounted,
}

/// The event of a function that goes on with the answer to a call of the library.
fn going_on<E: Drop>(
    wants: CallWants,
    answer: Option<i32>,
    view: CallView,
    run: &mut RunBytes,
) -> StepEvent<E>
    requires { view.position + 1 < 2 ^ 64 }
    ensures meaning { (ending : List Object → E → Ending) → (units : Units) → (transfer : Option Transfer) → (values : List CValue) →
        steps.moving (steps.taken (wants_of wants) answer (view_of view) (world_of run.old units transfer)) ≡ event_of ending (world_of run.new units transfer) values result }
    ensures called { (position room : ℕ) → IsCalled position room result }
    ensures forms { SameForms run.old run.new }
{
    match taken(wants, answer, view, run) {
        Ok(view) => StepEvent::Goes(view),
        Err(fault) => StepEvent::Breaks(RunBreak::Fault(fault)),
    }
}

/// What the caller does with what a function of the library gives.
fn replied<E: Drop>(
    view: CallView,
    wants: CallWants,
    reply: LibraryReply<E>,
    run: &mut RunBytes,
) -> StepEvent<E>
    requires { view.position + 1 < 2 ^ 64 }
    ensures meaning { (ending : List Object → E → Ending) → (units : Units) → (transfer : Option Transfer) → (values : List CValue) →
        steps.replied (view_of view) (wants_of wants) (reply_of ending (world_of run.old units transfer) reply) ≡ event_of ending (world_of run.new units transfer) values result }
    ensures called { (position room : ℕ) → IsCalled position room result }
    ensures forms { SameForms run.old run.new }
{
    match reply {
        LibraryReply::Gives(number) => going_on(wants, Some(number), view, run),
        LibraryReply::Void => going_on(wants, None, view, run),
        LibraryReply::Stops(ending) => StepEvent::Stops { view, ending },
    }
}

/// What the caller does with a call of the library that gives nothing.
///
/// # Errors
/// Why there is no event.
fn broken<E: Drop>(reason: CallBreak) -> Result<StepEvent<E>, StepFailure>
    ensures is { result ≡ broken_of reason }
    ensures called { (position room : ℕ) → IfOk result (IsCalled position room) }
{
    match reason {
        CallBreak::Break(reason) => Ok(StepEvent::Breaks(reason)),
        CallBreak::Device(unit) => Err(StepFailure::Device(unit)),
        CallBreak::Uncounted => Err(StepFailure::Uncounted),
    }
}

/// A call of a function of the library that may be called so.
///
/// # Errors
/// Why it has no event.
fn call_made<L: Library>(
    view: CallView,
    wants: CallWants,
    number: usize,
    values: &[CValue],
    run: &mut RunBytes,
    library: &mut L,
) -> Result<StepEvent<L::Ending>, StepFailure>
    requires ready { view.position + 1 < 2 ^ 64 }
    requires allowed { Allows number values.now (wants_of wants) (Ok tt) }
    requires texts { rooms.HasRoom (L.room library.old) run.old }
    ensures meaning { (units : Units) → (transfer : Option Transfer) → (given : List CValue) → L.stands library.old units transfer →
        StepsBy L.ending (steps.library_called (view_of view) (world_of run.old units transfer) (wants_of wants) values.now (slice_get signatures number)) (L.stands library.new) run.new given result }
    ensures kept { (units : Units) → (transfer : Option Transfer) → L.stands library.old units transfer →
        LeftByStep (call_by (wants_of wants) values.now (slice_get signatures number)) (world_of run.old units transfer) (L.stands library.new) result }
    ensures devices { ToldOfStep L.none_failed L.failed_on library.old library.new result }
    ensures counted { UncountedInStep (CountsIn (λ before. call_by (wants_of wants) values.now (slice_get signatures number)) run.old (L.stands library.old) (λ unit. L.uncounted unit library.new)) result }
    ensures texts { L.room library.new ≡ L.room library.old }
    ensures called { (position room : ℕ) → IfOk result (IsCalled position room) }
    ensures forms { SameForms run.old run.new }
{
    match library.call(number, values, run) {
        Ok(reply) => Ok(replied(view, wants, reply, run)),
        Err(reason) => broken(reason),
    }
}

/// A call of a function of the library, which is one step of the caller.
///
/// # Errors
/// Why it has no event.
fn library_called<L: Library>(
    view: CallView,
    wants: CallWants,
    number: usize,
    values: &[CValue],
    run: &mut RunBytes,
    library: &mut L,
) -> Result<StepEvent<L::Ending>, StepFailure>
    requires ready { view.position + 1 < 2 ^ 64 }
    requires texts { rooms.HasRoom (L.room library.old) run.old }
    ensures meaning { (units : Units) → (transfer : Option Transfer) → (given : List CValue) → L.stands library.old units transfer →
        StepsBy L.ending (steps.library_called (view_of view) (world_of run.old units transfer) (wants_of wants) values.now (slice_get signatures number)) (L.stands library.new) run.new given result }
    ensures kept { (units : Units) → (transfer : Option Transfer) → L.stands library.old units transfer →
        LeftByStep (call_by (wants_of wants) values.now (slice_get signatures number)) (world_of run.old units transfer) (L.stands library.new) result }
    ensures devices { ToldOfStep L.none_failed L.failed_on library.old library.new result }
    ensures counted { UncountedInStep (CountsIn (λ before. call_by (wants_of wants) values.now (slice_get signatures number)) run.old (L.stands library.old) (λ unit. L.uncounted unit library.new)) result }
    ensures texts { L.room library.new ≡ L.room library.old }
    ensures called { (position room : ℕ) → IfOk result (IsCalled position room) }
    ensures forms { SameForms run.old run.new }
{
    match allowed(number, values, wants) {
        Ok(()) => call_made(view, wants, number, values, run, library),
        Err(fault) => Ok(StepEvent::Breaks(RunBreak::Fault(fault))),
    }
}

/// The first values of a buffer.
pub(crate) fn first_values(buffer: &[CValue], count: usize) -> &[CValue]
    requires { count ≤ length buffer.now }
    ensures { result.now ≡ take count buffer.now }
{
    &buffer[..count]
}

/// What an item does, in a function that gives its caller such a value.
///
/// # Errors
/// Why it has no event.
fn item_step<L: Library>(
    own: usize,
    gives: ResultType,
    view: CallView,
    item: &LinkedItem,
    buffer: &mut [CValue],
    run: &mut RunBytes,
    library: &mut L,
) -> Result<StepEvent<L::Ending>, StepFailure>
    requires ready { view.position + 1 < 2 ^ 64 }
    requires room { argument_count item.now ≤ length buffer.old }
    requires texts { rooms.HasRoom (L.room library.old) run.old }
    ensures meaning { (function : linking.Function) → function.own ≡ own → function.result ≡ gives →
        (units : Units) → (transfer : Option Transfer) → L.stands library.old units transfer →
        StepsBy L.ending (steps.deed function (view_of view) (world_of run.old units transfer) (flat_of item.now)) (L.stands library.new) run.new buffer.new result }
    ensures kept { (units : Units) → (transfer : Option Transfer) → L.stands library.old units transfer →
        LeftByStep (item_call own run.old (flat_of item.now)) (world_of run.old units transfer) (L.stands library.new) result }
    ensures devices { ToldOfStep L.none_failed L.failed_on library.old library.new result }
    ensures counted { UncountedInStep (CountsIn (λ before. item_call own run.old (flat_of item.now)) run.old (L.stands library.old) (λ unit. L.uncounted unit library.new)) result }
    ensures texts { L.room library.new ≡ L.room library.old }
    ensures called { IfOk result (IsCalled view.position (length buffer.new)) }
    ensures forms { SameForms run.old run.new }
{
    match perform(own, gives, view, item, run, buffer) {
        Deed::Goes(view) => Ok(StepEvent::Goes(view)),
        Deed::Calls {
            view,
            number,
            count,
        } => Ok(StepEvent::Calls {
            view,
            number,
            count,
        }),
        Deed::Library {
            view,
            wants,
            number,
            count,
        } => library_called(
            view,
            wants,
            number,
            first_values(buffer, count),
            run,
            library,
        ),
        Deed::Answers(answer) => Ok(StepEvent::Answers(answer)),
        Deed::Breaks(fault) => Ok(StepEvent::Breaks(RunBreak::Fault(fault))),
    }
}

/// The next step of a function of a program that has `own` functions. The buffer has room for the arguments of each call.
///
/// # Errors
/// Why it has no event.
pub(crate) fn step<L: Library>(
    own: usize,
    function: &LinkedFunction,
    view: CallView,
    buffer: &mut [CValue],
    run: &mut RunBytes,
    library: &mut L,
) -> Result<StepEvent<L::Ending>, StepFailure>
    requires room { HasRoom (length buffer.old) function.now.code }
    requires texts { rooms.HasRoom (L.room library.old) run.old }
    ensures meaning { (units : Units) → (transfer : Option Transfer) → L.stands library.old units transfer →
        StepsBy L.ending (steps.step (function_of own function.now) (view_of view) (world_of run.old units transfer)) (L.stands library.new) run.new buffer.new result }
    ensures kept { (units : Units) → (transfer : Option Transfer) → L.stands library.old units transfer →
        LeftByStep (next_call (function_of own function.now) (view_of view) (world_of run.old units transfer)) (world_of run.old units transfer) (L.stands library.new) result }
    ensures devices { ToldOfStep L.none_failed L.failed_on library.old library.new result }
    ensures counted { UncountedInStep (CountsIn (next_call (function_of own function.now) (view_of view)) run.old (L.stands library.old) (λ unit. L.uncounted unit library.new)) result }
    ensures texts { L.room library.new ≡ L.room library.old }
    ensures called { IfOk result (IsCalled view.position (length buffer.new)) }
    ensures forms { SameForms run.old run.new }
{
    match function.code.get(view.position) {
        Some(item) => {
            let within = view.position < function.code.len();
            prove!(within);
            item_step(own, function.result, view, item, buffer, run, library)
        }
        None => Ok(StepEvent::Breaks(RunBreak::Meaningless)),
    }
}
