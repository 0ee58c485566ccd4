//! A run of a linked program over a table of external units.

ghost use Rattle.std.specs.Prelude.{◌≡◌, None, IfOk, OnErr, length};
ghost use Rattle.c_tree.specs.run_state.Units.{Units};
ghost use Rattle.c_tree.specs.Meaning as meaning;
ghost use Rattle.linked_programs.specs.LinkedPrograms.{program_of};
ghost use Rattle.unit_answers.specs.Failing.{NoneFailed, FailedOn};
ghost use Rattle.run_library.specs.Replies.{StandsIn};
ghost use Rattle.run_library.specs.Room.{HasRoom};
ghost use Rattle.program_runner.specs.Outcomes.{FramesStand, HasArgumentRoom, IsRunOf, UnlessRunFailed, ToldOfWholeRun};
ghost use Rattle.program_runner.specs.Taken.{TakenBy};
ghost use Rattle.unit_library.specs.Endings.{ending_of};
ghost use Rattle.unit_library.specs.Held.{rows_in, transfer_in, room_in};
ghost use Rattle.unit_library.specs.Transfers.{Standing};
ghost use Rattle.unit_library.specs.Uncounted.{IsFarBehind};

use c_tree::outcome::{CFault, CValue};
use f2c_outside::devices::Device;
use linked_programs::LinkedProgram;
use program_runner::{CallFrame, RunTaken, run_program};
use run_bytes::RunBytes;
use unit_library::{RunEnding, UnitLibrary};

/// Runs a program from its main program on, so many steps, or until it is over, with the functions of the library over a table of external
/// units, and answers how many steps it went. Its objects hold what they start with, and no text among them is longer than the library has
/// room for. There is a frame of room for each function, and the buffer has room for the arguments of each call. The run is that of the
/// definitions for the units that the table stands for, where the devices tell their records and no transfer is in progress, unless the
/// device of a unit fails, or a call on a unit is to count more than 64 bits tell, which is only where that unit stands behind 2^53 records or
/// more.
///
/// # Errors
/// Where the main program does not begin, that is where there is none or it has parameters: why.
pub fn run_on_units(
    program: &LinkedProgram,
    frames: Vec<CallFrame>,
    buffer: &mut [CValue],
    objects: &mut RunBytes,
    library: &mut UnitLibrary,
    steps: usize,
) -> Result<RunTaken<RunEnding>, CFault>
    requires frames { FramesStand program.now objects.old }
    requires depth { length frames.items ≡ length program.now.functions }
    requires room { HasArgumentRoom program.now (length buffer.old) }
    requires objects { objects.old ≡ (program_of program.now).objects }
    requires texts { HasRoom (room_in library.old) objects.old }
    ensures meaning { (units : Units) → Standing (rows_in (λ b. (⟦<dyn Device as Device>⟧ b.vtable).device_state b.value) library.old) (transfer_in library.old) units None →
        UnlessRunFailed result (StandsIn (Standing (rows_in (λ b. (⟦<dyn Device as Device>⟧ b.vtable).device_state b.value) library.new) (transfer_in library.new)) objects.new (λ after.
        IsRunOf ending_of (meaning.run_of (program_of program.now) units steps) after result)) }
    ensures taken { IfOk result (λ ran. TakenBy (program_of program.now) (λ units. Standing (rows_in (λ b. (⟦<dyn Device as Device>⟧ b.vtable).device_state b.value) library.old) (transfer_in library.old) units None) (meaning.run_of (program_of program.now))
        (λ held. Standing (rows_in (λ b. (⟦<dyn Device as Device>⟧ b.vtable).device_state b.value) held) (transfer_in held))
        (λ before after. NoneFailed (rows_in (λ b. (⟦<dyn Device as Device>⟧ b.vtable).device_state b.value) before) (rows_in (λ b. (⟦<dyn Device as Device>⟧ b.vtable).device_state b.value) after))
        (λ unit before after. FailedOn unit (rows_in (λ b. (⟦<dyn Device as Device>⟧ b.vtable).device_state b.value) before) (rows_in (λ b. (⟦<dyn Device as Device>⟧ b.vtable).device_state b.value) after))
        (λ unit held. IsFarBehind unit (rows_in (λ b. (⟦<dyn Device as Device>⟧ b.vtable).device_state b.value) held))
        steps library.old library.new ran.steps ran.outcome) }
    ensures devices { ToldOfWholeRun
        (λ before after. NoneFailed (rows_in (λ b. (⟦<dyn Device as Device>⟧ b.vtable).device_state b.value) before) (rows_in (λ b. (⟦<dyn Device as Device>⟧ b.vtable).device_state b.value) after))
        (λ unit before after. FailedOn unit (rows_in (λ b. (⟦<dyn Device as Device>⟧ b.vtable).device_state b.value) before) (rows_in (λ b. (⟦<dyn Device as Device>⟧ b.vtable).device_state b.value) after))
        library.old library.new result }
    ensures texts { room_in library.new ≡ room_in library.old }
    ensures unbegun { OnErr result (library.new ≡ library.old) }
{
    run_program(program, frames, buffer, objects, library, steps)
}
