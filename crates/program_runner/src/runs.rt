//! Runs of linked programs (C89, 3.6.6.4 and 3.7.1).

ghost use Rattle.std.specs.Prelude.{◌≡◌, ℕ, ◌<◌, ◌+◌, ◌^◌, [], None, Option, length, position, unwrap_or, bytes_eq, IfOk, OnErr};
ghost use Rattle.c_tree.specs.simulation.Machine as machine;
ghost use Rattle.c_tree.specs.run_state.Units.{Units};
ghost use Rattle.c_tree.specs.Linking.{main_name};
ghost use Rattle.c_tree.specs.Meaning as meaning;
ghost use Rattle.c_tree.specs.Steps as stepping;
ghost use Rattle.c_tree.specs.Steps.{language};
ghost use Rattle.c_tree.specs.World.{World, Transfer};
ghost use Rattle.linked_programs.specs.LinkedPrograms.{program_of, function_of};
ghost use Rattle.item_deeds.specs.Deeds.{world_of};
ghost use Rattle.item_deeds.specs.Forms.{SameForms};
ghost use Rattle.call_frames.specs.Frames.{HasFrame};
ghost use Rattle.run_library.specs.Replies.{StandsIn};
ghost use Rattle.run_library.specs.Room.{HasRoom};
ghost use Rattle.program_runner.specs.Stacks.{state_of, IsStack};
ghost use Rattle.program_runner.specs.Outcomes.{FramesStand, HasArgumentRoom, Reaches, KeepsStack, UnlessFailed, ToldOfRun, Begins, IsRunOf, UnlessRunFailed, ToldOfWholeRun};
ghost use Rattle.program_runner.specs.Taken.{taken_with, TakenBy};

use crate::machine::advance;
use crate::stack::{ActiveFunction, CallFrame, CallStack};
use c_tree::outcome::{CFault, CValue};
use call_frames::start;
use linked_programs::{LinkedFunction, LinkedProgram};
use run_bytes::RunBytes;
use run_library::{Library, RunBreak};

/// How a run stands.
#[derive(Drop)]
pub enum RunOutcome<E: Drop> {
    /// It goes on.
    Running,
    /// The main program came to its end.
    Returned,
    /// The library ended it.
    Stopped(E),
    /// It cannot go on.
    Broken {
        /// Why.
        reason: RunBreak,
        /// The number of the function in whose name it breaks.
        function: usize,
    },
    /// The device of this unit failed.
    Failed(i32),
    /// A call of the library was to count more than 64 bits tell.
    Uncounted,
}

/// How a run stands, and how many steps it has taken to come there.
#[derive(Drop)]
pub struct RunTaken<E: Drop> {
    /// How it stands.
    pub outcome: RunOutcome<E>,
    /// How many steps it has taken: with the one by which it is over, and without one in which a device failed, or more was to be counted
    /// than 64 bits tell.
    pub steps: usize,
}

/// Whether a function is the main program.
fn is_main(function: &LinkedFunction) -> bool
    ensures { result ≡ bytes_eq main_name function.now.name }
{
    b"MAIN__".as_slice() == function.name.as_slice()
}

/// The number of the main program, if there is one.
fn main_place(functions: &[LinkedFunction]) -> Option<usize>
    ensures { result ≡ position (λ function. bytes_eq main_name function.name) functions.now }
{
    functions.iter().position(|function| is_main(function))
}

/// The number of the main program, or 0 where there is none.
fn main_number(program: &LinkedProgram) -> usize
    ensures { result ≡ unwrap_or (position (λ function. bytes_eq main_name function.name) program.now.functions) 0 }
{
    match main_place(program.functions.as_slice()) {
        Some(number) => number,
        None => 0,
    }
}

/// Begins a run by a function, with room for so many active ones.
fn begin_by(
    frames: Vec<CallFrame>,
    number: usize,
    function: &LinkedFunction,
    run: &mut RunBytes,
) -> Result<CallStack, CFault>
    requires below { number < length frames.items }
    requires frame { HasFrame function.now run.old }
    ensures meaning { (own : ℕ) → (units : Units) → (transfer : Option Transfer) →
        Begins (machine.opening language (stepping.start (function_of own function.now) number [] (world_of run.old units transfer)) number []) (world_of run.new units transfer) result }
    ensures stack { IfOk result (IsStack (length frames.items)) }
    ensures forms { SameForms run.old run.new }
{
    match start(function, &[], run) {
        Ok(view) => Ok(CallStack::new(frames, ActiveFunction { number, view })),
        Err(fault) => Err(fault),
    }
}

/// Begins a run: the main program is the only active function. There is a frame of room for each function.
///
/// # Errors
/// `Kind` where the program has no functions; `Disagree` where the main program has parameters.
pub fn begin(
    program: &LinkedProgram,
    frames: Vec<CallFrame>,
    run: &mut RunBytes,
) -> Result<CallStack, CFault>
    requires frames { FramesStand program.now run.old }
    requires depth { length frames.items ≡ length program.now.functions }
    ensures meaning { (units : Units) → (transfer : Option Transfer) →
        Begins (machine.begun language (meaning.machine (program_of program.now)) (meaning.main_number (program_of program.now)) [] (world_of run.old units transfer)) (world_of run.new units transfer) result }
    ensures stack { IfOk result (IsStack (length program.now.functions)) }
    ensures forms { SameForms run.old run.new }
{
    let number = main_number(program);
    match program.functions.get(number) {
        Some(function) => begin_by(frames, number, function, run),
        None => Err(CFault::Kind),
    }
}

/// A run that the next step behind so many ended, or in which it failed.
fn ended_behind<E: Drop>(taken: usize, outcome: RunOutcome<E>) -> RunTaken<E>
    requires { taken + 1 < 2 ^ 64 }
    ensures outcome { result.outcome ≡ outcome }
    ensures steps { result.steps ≡ taken_with taken outcome }
{
    let steps = match &outcome {
        RunOutcome::Failed(_) | RunOutcome::Uncounted => taken,
        _ => taken + 1,
    };
    RunTaken { outcome, steps }
}

/// Goes so many steps on, as long as the run is not over, and answers how many it went. The buffer has room for the arguments of each call.
/// The run is that of the definitions for all units and each transfer in progress for which the library stands, unless the device of a unit
/// fails, or a call is to count more than 64 bits tell. No text of the objects is longer than the library can put together.
pub fn run<L: Library>(
    program: &LinkedProgram,
    stack: &mut CallStack,
    buffer: &mut [CValue],
    run: &mut RunBytes,
    library: &mut L,
    steps: usize,
) -> RunTaken<L::Ending>
    requires stack { IsStack (length program.now.functions) stack.old }
    requires room { HasArgumentRoom program.now (length buffer.old) }
    requires frames { FramesStand program.now run.old }
    requires texts { HasRoom (L.room library.old) run.old }
    ensures meaning { (units : Units) → (transfer : Option Transfer) → L.stands library.old units transfer →
        UnlessFailed result.outcome (StandsIn (L.stands library.new) run.new (λ after.
        Reaches L.ending (machine.run language (meaning.machine (program_of program.now)) steps (state_of stack.old (world_of run.old units transfer))) stack.new after result.outcome)) }
    ensures taken { TakenBy (program_of program.now) (λ (before : World). (before.objects ≡ run.old) × L.stands library.old before.units before.transfer)
        (λ before count. machine.run language (meaning.machine (program_of program.now)) count (state_of stack.old before)) L.stands L.none_failed L.failed_on L.uncounted steps library.old library.new result.steps result.outcome }
    ensures devices { ToldOfRun L.none_failed L.failed_on library.old library.new result.outcome }
    ensures texts { L.room library.new ≡ L.room library.old }
    ensures stack { KeepsStack (length program.now.functions) stack.new result.outcome }
    ensures forms { SameForms run.old run.new }
{
    let mut taken = 0;
    while taken < steps {
        match advance(program, stack, buffer, run, library) {
            RunOutcome::Running => taken += 1,
            over => return ended_behind(taken, over),
        }
    }
    RunTaken {
        outcome: RunOutcome::Running,
        steps,
    }
}

/// Runs a program from its main program on, so many steps, or until it is over, and answers how many it went. Its objects hold what they
/// start with. There is a frame of room for each function, and the buffer has room for the arguments of each call. The run is that of the
/// definitions for all units for which the library stands without a transfer in progress, unless the device of a unit fails, or a call is to
/// count more than 64 bits tell. No text of the objects is longer than the library can put together.
///
/// # Errors
/// Where the main program does not begin, that is where there is none or it has parameters: why.
pub fn run_program<L: Library>(
    program: &LinkedProgram,
    frames: Vec<CallFrame>,
    buffer: &mut [CValue],
    objects: &mut RunBytes,
    library: &mut L,
    steps: usize,
) -> Result<RunTaken<L::Ending>, CFault>
    requires frames { FramesStand program.now objects.old }
    requires depth { length frames.items ≡ length program.now.functions }
    requires room { HasArgumentRoom program.now (length buffer.old) }
    requires objects { objects.old ≡ (program_of program.now).objects }
    requires texts { HasRoom (L.room library.old) objects.old }
    ensures meaning { (units : Units) → L.stands library.old units None →
        UnlessRunFailed result (StandsIn (L.stands library.new) objects.new (λ after. IsRunOf L.ending (meaning.run_of (program_of program.now) units steps) after result)) }
    ensures taken { IfOk result (λ ran. TakenBy (program_of program.now) (λ units. L.stands library.old units None) (meaning.run_of (program_of program.now)) L.stands L.none_failed L.failed_on L.uncounted steps library.old library.new ran.steps ran.outcome) }
    ensures devices { ToldOfWholeRun L.none_failed L.failed_on library.old library.new result }
    ensures texts { L.room library.new ≡ L.room library.old }
    ensures unbegun { OnErr result (library.new ≡ library.old) }
{
    match begin(program, frames, objects) {
        Ok(mut stack) => Ok(run(program, &mut stack, buffer, objects, library, steps)),
        Err(fault) => Err(fault),
    }
}
