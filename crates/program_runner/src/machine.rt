//! The next step of a run (C89, 3.3.2.2 and 3.6.6.4).

ghost use Rattle.std.specs.Prelude.{◌≡◌, ℕ, ◌<◌, ◌+◌, ◌^◌, List, ◌∷◌, Option, length};
ghost use Rattle.c_tree.specs.simulation.Machine as machine;
ghost use Rattle.c_tree.specs.run_state.Endings.{Ending};
ghost use Rattle.c_tree.specs.run_state.Units.{Units};
ghost use Rattle.c_tree.specs.Meaning as meaning;
ghost use Rattle.c_tree.specs.Steps as steps;
ghost use Rattle.c_tree.specs.Steps.{View, sorts, language};
ghost use Rattle.c_tree.specs.Objects.{Object};
ghost use Rattle.c_tree.specs.World.{World, Transfer};
ghost use Rattle.linked_programs.specs.LinkedPrograms.{program_of, function_of};
ghost use Rattle.call_frames.specs.Frames.{HasFrame};
ghost use Rattle.item_deeds.specs.Deeds.{IfDone, IfFound, view_of, world_of};
ghost use Rattle.item_deeds.specs.Calls.{next_call};
ghost use Rattle.item_deeds.specs.Forms.{SameForms};
ghost use Rattle.run_library.specs.Replies.{StandsIn};
ghost use Rattle.run_library.specs.Room.{HasRoom};
ghost use Rattle.program_runner.specs.Stacks.{frames_of, waiting, state_of, IsStack};
ghost use Rattle.program_runner.specs.Events.{event_of, IsCalled};
ghost use Rattle.program_runner.specs.UnitsLeft.{LeftByNext, CountsIn};
ghost use Rattle.program_runner.specs.Outcomes.{FramesStand, HasArgumentRoom, Reaches, KeepsStack, UnlessFailed, ToldOfNext, UncountedInNext};

use crate::events::{StepEvent, StepFailure, first_values, step};
use crate::runs::RunOutcome;
use crate::stack::{ActiveFunction, CallStack};
use c_tree::outcome::{CFault, CValue};
use call_frames::{resume, start};
use item_deeds::{CallView, next_position};
use linked_programs::{LinkedFunction, LinkedProgram};
use run_bytes::RunBytes;
use run_library::{Library, RunBreak};

/// A run that breaks by a fault in the active function.
fn faulty<E: Drop>(stack: &CallStack, fault: CFault) -> RunOutcome<E>
    ensures { result ≡ RunOutcome.Broken (RunBreak.Fault fault) stack.now.top.number }
{
    RunOutcome::Broken {
        reason: RunBreak::Fault(fault),
        function: stack.top.number,
    }
}

/// A call that its function accepts, of one that is active or is not. The one that calls it waits with a view.
fn entered<E: Drop>(stack: &mut CallStack, view: CallView, called: ActiveFunction) -> RunOutcome<E>
    requires stack { IsStack (length stack.old.room.items) stack.old }
    requires ready { view.position + 1 < 2 ^ 64 }
    requires below { called.number < length stack.old.room.items }
    ensures meaning { (ending : List Object → E → Ending) → (world : World) →
        Reaches ending (machine.opening language (machine.Enters (view_of called.view) world) called.number (machine.Has stack.old.top.number (view_of view) ∷ frames_of (waiting stack.old))) stack.new world result }
    ensures stack { KeepsStack (length stack.old.room.items) stack.new result }
{
    if stack.is_active(called.number) {
        return faulty(stack, CFault::Active);
    }
    stack.push(view, called);
    RunOutcome::Running
}

/// A call of a function of the program that there is.
fn call_known<E: Drop>(
    function: &LinkedFunction,
    stack: &mut CallStack,
    view: CallView,
    number: usize,
    values: &[CValue],
    run: &mut RunBytes,
) -> RunOutcome<E>
    requires stack { IsStack (length stack.old.room.items) stack.old }
    requires ready { view.position + 1 < 2 ^ 64 }
    requires below { number < length stack.old.room.items }
    requires frame { HasFrame function.now run.old }
    ensures meaning { (own : ℕ) → (ending : List Object → E → Ending) → (units : Units) → (transfer : Option Transfer) →
        Reaches ending
        (machine.opening language (steps.start (function_of own function.now) number values.now (world_of run.old units transfer)) number (machine.Has stack.old.top.number (view_of view) ∷ frames_of (waiting stack.old)))
        stack.new (world_of run.new units transfer) result }
    ensures stack { KeepsStack (length stack.old.room.items) stack.new result }
    ensures forms { SameForms run.old run.new }
{
    match start(function, values, run) {
        Ok(first) => {
            let called = ActiveFunction {
                number,
                view: first,
            };
            entered(stack, view, called)
        }
        Err(fault) => faulty(stack, fault),
    }
}

/// A call of a function of the program, by the active one, which waits with a view.
fn call<E: Drop>(
    program: &LinkedProgram,
    stack: &mut CallStack,
    view: CallView,
    number: usize,
    values: &[CValue],
    run: &mut RunBytes,
) -> RunOutcome<E>
    requires stack { IsStack (length program.now.functions) stack.old }
    requires ready { view.position + 1 < 2 ^ 64 }
    requires frames { FramesStand program.now run.old }
    ensures meaning { (ending : List Object → E → Ending) → (units : Units) → (transfer : Option Transfer) →
        Reaches ending
        (machine.calling language (meaning.machine (program_of program.now)) (meaning.numbered (program_of program.now).functions number) number values.now
        (world_of run.old units transfer) (machine.Has stack.old.top.number (view_of view) ∷ frames_of (waiting stack.old)))
        stack.new (world_of run.new units transfer) result }
    ensures stack { KeepsStack (length program.now.functions) stack.new result }
    ensures forms { SameForms run.old run.new }
{
    match program.functions.get(number) {
        Some(function) => call_known(function, stack, view, number, values, run),
        None => faulty(stack, CFault::Kind),
    }
}

/// An answer of the active function: the one that waits for it goes on. Where there is none, the run is over.
fn answer<E: Drop>(stack: &mut CallStack, given: Option<i32>, run: &mut RunBytes) -> RunOutcome<E>
    requires { IsStack (length stack.old.room.items) stack.old }
    ensures meaning { (program : machine.Program sorts) → (ending : List Object → E → Ending) → (units : Units) → (transfer : Option Transfer) →
        Reaches ending
        (machine.answering language program stack.old.top.number (frames_of (waiting stack.old)) (world_of run.old units transfer) given)
        stack.new (world_of run.new units transfer) result }
    ensures stack { KeepsStack (length stack.old.room.items) stack.new result }
    ensures forms { SameForms run.old run.new }
{
    let function = stack.top.number;
    if !stack.pop() {
        return RunOutcome::Returned;
    }
    match resume(stack.top.view, given, run) {
        Ok(view) => {
            stack.top.view = view;
            RunOutcome::Running
        }
        Err(fault) => RunOutcome::Broken {
            reason: RunBreak::Fault(fault),
            function,
        },
    }
}

/// What an event of the active function makes of the run. The first values of a buffer are those of the arguments of a call.
fn happened<E: Drop>(
    program: &LinkedProgram,
    stack: &mut CallStack,
    event: StepEvent<E>,
    buffer: &[CValue],
    run: &mut RunBytes,
) -> RunOutcome<E>
    requires stack { IsStack (length program.now.functions) stack.old }
    requires called { IsCalled stack.old.top.view.position (length buffer.now) event }
    requires frames { FramesStand program.now run.old }
    ensures meaning { (ending : List Object → E → Ending) → (units : Units) → (transfer : Option Transfer) →
        Reaches ending
        (machine.act language (meaning.machine (program_of program.now)) (event_of ending (world_of run.old units transfer) buffer.now event) stack.old.top.number (frames_of (waiting stack.old)))
        stack.new (world_of run.new units transfer) result }
    ensures stack { KeepsStack (length program.now.functions) stack.new result }
    ensures forms { SameForms run.old run.new }
{
    match event {
        StepEvent::Goes(view) => {
            stack.top.view = view;
            RunOutcome::Running
        }
        StepEvent::Stops { ending, .. } => RunOutcome::Stopped(ending),
        StepEvent::Calls {
            view,
            number,
            count,
        } => call(
            program,
            stack,
            view,
            number,
            first_values(buffer, count),
            run,
        ),
        StepEvent::Answers(given) => answer(stack, given, run),
        StepEvent::Breaks(reason) => RunOutcome::Broken {
            reason,
            function: stack.top.number,
        },
    }
}

/// The position at which a function goes on behind its next item, where the short way finds it: then the item is done.
fn position_after(function: &LinkedFunction, position: usize, run: &mut RunBytes) -> Option<usize>
    ensures meaning { IfFound result (λ next. (own : ℕ) → (view : View) → view.position ≡ position → (units : Units) → (transfer : Option Transfer) →
        steps.step (function_of own function.now) view (world_of run.old units transfer) ≡ machine.Goes (record view { position = next }) (world_of run.new units transfer)) (run.new ≡ run.old) }
    ensures forms { SameForms run.old run.new }
{
    match function.code.get(position) {
        Some(item) => {
            let within = position < function.code.len();
            prove!(within);
            next_position(position, item, run)
        }
        None => None,
    }
}

/// The next step of a run by the short way. It answers whether the step is done; else nothing is.
fn moved_on(program: &LinkedProgram, stack: &mut CallStack, run: &mut RunBytes) -> bool
    requires { IsStack (length program.now.functions) stack.old }
    ensures meaning { IfDone result ((units : Units) → (transfer : Option Transfer) →
        machine.next language (meaning.machine (program_of program.now)) (state_of stack.old (world_of run.old units transfer)) ≡ state_of stack.new (world_of run.new units transfer))
        ((stack.new ≡ stack.old) × (run.new ≡ run.old)) }
    ensures stack { IsStack (length program.now.functions) stack.new }
    ensures forms { SameForms run.old run.new }
{
    let Some(function) = program.functions.get(stack.top.number) else {
        return false;
    };
    match position_after(function, stack.top.view.position, run) {
        Some(position) => {
            stack.top.view.position = position;
            true
        }
        None => false,
    }
}

/// The next step of a run.
fn next<L: Library>(
    program: &LinkedProgram,
    stack: &mut CallStack,
    buffer: &mut [CValue],
    run: &mut RunBytes,
    library: &mut L,
) -> RunOutcome<L::Ending>
    requires stack { IsStack (length program.now.functions) stack.old }
    requires room { HasArgumentRoom program.now (length buffer.old) }
    requires frames { FramesStand program.now run.old }
    requires texts { HasRoom (L.room library.old) run.old }
    ensures meaning { (units : Units) → (transfer : Option Transfer) → L.stands library.old units transfer →
        UnlessFailed result (StandsIn (L.stands library.new) run.new (λ after.
        Reaches L.ending (machine.next language (meaning.machine (program_of program.now)) (state_of stack.old (world_of run.old units transfer))) stack.new after result)) }
    ensures kept { (units : Units) → (transfer : Option Transfer) → L.stands library.old units transfer →
        LeftByNext (next_call (meaning.text_of (program_of program.now).functions stack.old.top.number) (view_of stack.old.top.view) (world_of run.old units transfer)) (world_of run.old units transfer) (L.stands library.new) result }
    ensures devices { ToldOfNext L.none_failed L.failed_on library.old library.new result }
    ensures counted { UncountedInNext (CountsIn (next_call (meaning.text_of (program_of program.now).functions stack.old.top.number) (view_of stack.old.top.view)) run.old (L.stands library.old) (λ unit. L.uncounted unit library.new)) result }
    ensures texts { L.room library.new ≡ L.room library.old }
    ensures stack { KeepsStack (length program.now.functions) stack.new result }
    ensures forms { SameForms run.old run.new }
{
    let frame = stack.top;
    let Some(function) = program.functions.get(frame.number) else {
        unreachable!();
    };
    match step(
        program.functions.len(),
        function,
        frame.view,
        buffer,
        run,
        library,
    ) {
        Ok(event) => happened(program, stack, event, buffer, run),
        Err(StepFailure::Device(unit)) => RunOutcome::Failed(unit),
        Err(StepFailure::Uncounted) => RunOutcome::Uncounted,
    }
}

/// The next step of a run, by the short way where it is found.
pub(crate) fn advance<L: Library>(
    program: &LinkedProgram,
    stack: &mut CallStack,
    buffer: &mut [CValue],
    run: &mut RunBytes,
    library: &mut L,
) -> RunOutcome<L::Ending>
    requires stack { IsStack (length program.now.functions) stack.old }
    requires room { HasArgumentRoom program.now (length buffer.old) }
    requires frames { FramesStand program.now run.old }
    requires texts { HasRoom (L.room library.old) run.old }
    ensures meaning { (units : Units) → (transfer : Option Transfer) → L.stands library.old units transfer →
        UnlessFailed result (StandsIn (L.stands library.new) run.new (λ after.
        Reaches L.ending (machine.next language (meaning.machine (program_of program.now)) (state_of stack.old (world_of run.old units transfer))) stack.new after result)) }
    ensures kept { (units : Units) → (transfer : Option Transfer) → L.stands library.old units transfer →
        LeftByNext (next_call (meaning.text_of (program_of program.now).functions stack.old.top.number) (view_of stack.old.top.view) (world_of run.old units transfer)) (world_of run.old units transfer) (L.stands library.new) result }
    ensures devices { ToldOfNext L.none_failed L.failed_on library.old library.new result }
    ensures counted { UncountedInNext (CountsIn (next_call (meaning.text_of (program_of program.now).functions stack.old.top.number) (view_of stack.old.top.view)) run.old (L.stands library.old) (λ unit. L.uncounted unit library.new)) result }
    ensures texts { L.room library.new ≡ L.room library.old }
    ensures stack { KeepsStack (length program.now.functions) stack.new result }
    ensures forms { SameForms run.old run.new }
{
    if moved_on(program, stack, run) {
        RunOutcome::Running
    } else {
        next(program, stack, buffer, run, library)
    }
}
