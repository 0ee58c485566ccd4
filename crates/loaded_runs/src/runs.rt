//! Runs of loaded programs.

ghost use Rattle.std.specs.Prelude.{◌≡◌, None, length};
ghost use Rattle.c_totality.specs.Totality.{AreWellFormed};
ghost use Rattle.c_tree.specs.Linking as linking;
ghost use Rattle.c_tree.specs.Linking.{first_broken_rule};
ghost use Rattle.c_tree.specs.Meaning.{meaning};
ghost use Rattle.f2c_outside.specs.Meaning.{Tells, units_of};
ghost use Rattle.f2c_outside.specs.Rows.{rows_of};
ghost use Rattle.linked_programs.specs.LinkedPrograms.{program_of};
ghost use Rattle.run_library.specs.Room.{HasRoom};
ghost use Rattle.program_runner.specs.Outcomes.{FramesStand, HasArgumentRoom};
ghost use Rattle.program_loader.specs.Loaded.{IsLoaded};
ghost use Rattle.unit_library.specs.Held.{rows_in, transfer_in, room_in};
ghost use Rattle.loaded_runs.specs.RunEnds.{EndsBy, IsReached, DevicesInRun, IsUncounted, IsRun};

use crate::ends::{EndTaken, RunEnd, end_of};
use crate::finishing::finished;
use c_totality::totality::no_run_is_without_meaning;
use c_tree::file::CFile;
use c_tree::outcome::CValue;
use f2c_outside::devices::Device;
use f2c_outside::unit_table::UnitTable;
use linked_programs::LinkedProgram;
use program_loader::LoadedProgram;
use program_runner::CallFrame;
use run_bytes::RunBytes;
use unit_library::UnitLibrary;
use unit_library_runs::run_on_units;

/// A run that has ended, or has taken its steps.
#[derive(Drop)]
pub struct ProgramRun {
    /// How it ended.
    pub end: RunEnd,
    /// The program.
    pub program: LinkedProgram,
    /// The objects as the run left them.
    pub objects: RunBytes,
    /// The units as it left them.
    pub units: UnitTable,
    /// How many steps it took: with the one by which it was over, and without one in which a device failed, or more was to be counted than 64
    /// bits tell.
    pub steps: usize,
}

/// Runs the program to which files are linked with a library in which no transfer is in progress; how it ended, and how many steps it took.
fn run_with(
    _files: &[CFile],
    program: &LinkedProgram,
    frames: Vec<CallFrame>,
    buffer: &mut [CValue],
    objects: &mut RunBytes,
    library: &mut UnitLibrary,
    steps: usize,
) -> EndTaken
    requires formed { AreWellFormed _files.now }
    requires rules { first_broken_rule _files.now ≡ None }
    requires linked { program_of program.now ≡ linking.program _files.now }
    requires frames { FramesStand program.now objects.old }
    requires depth { length frames.items ≡ length program.now.functions }
    requires room { HasArgumentRoom program.now (length buffer.old) }
    requires objects { objects.old ≡ (program_of program.now).objects }
    requires texts { HasRoom (room_in library.old) objects.old }
    requires transfer { transfer_in library.old ≡ None }
    ensures meant { Tells (rows_in (λ b. (⟦<dyn Device as Device>⟧ b.vtable).device_state b.value) library.old) →
        EndsBy (meaning _files.now (units_of (rows_in (λ b. (⟦<dyn Device as Device>⟧ b.vtable).device_state b.value) library.old)) steps) (units_of (rows_in (λ b. (⟦<dyn Device as Device>⟧ b.vtable).device_state b.value) library.new)) objects.new result.end }
    ensures reached { Tells (rows_in (λ b. (⟦<dyn Device as Device>⟧ b.vtable).device_state b.value) library.old) →
        IsReached _files.now (units_of (rows_in (λ b. (⟦<dyn Device as Device>⟧ b.vtable).device_state b.value) library.old)) steps (units_of (rows_in (λ b. (⟦<dyn Device as Device>⟧ b.vtable).device_state b.value) library.new)) result.steps result.end }
    ensures devices { DevicesInRun _files.now steps result.steps (rows_in (λ b. (⟦<dyn Device as Device>⟧ b.vtable).device_state b.value) library.old) (rows_in (λ b. (⟦<dyn Device as Device>⟧ b.vtable).device_state b.value) library.new) result.end }
    ensures uncounted { IsUncounted _files.now steps result.steps (rows_in (λ b. (⟦<dyn Device as Device>⟧ b.vtable).device_state b.value) library.old) (rows_in (λ b. (⟦<dyn Device as Device>⟧ b.vtable).device_state b.value) library.new) result.end }
{
    no_run_is_without_meaning();
    let ran = run_on_units(program, frames, buffer, objects, library, steps);
    end_of(ran)
}

/// Runs a program that was loaded from files, so many steps, or until it is over, with no transfer in progress at first, and finishes the
/// devices of the units. It takes no memory. For units whose devices tell their records the run is that of the definitions, unless a device
/// fails, or a call on a unit is to count more than 64 bits tell, which is only where that unit stands behind 2^53 records or more then.
///
/// The run of the definitions has taken as many steps: all that it may where it is not over, else the least number by which it is over. At a
/// fault the units are left by the last step: as it found them, where it calls no function of the library; as the function left them, where
/// the one that it calls replies, so that the fault is in the store of what it gave; and where that call breaks, as the step found them,
/// unless it is of the items or the end of the transfer in progress. Of a fault there, in input on a unit or in formatted output on one, it is
/// said that all other units stand as the step found them, and that its own is connected exactly if it was, and nothing of the records that it
/// holds or where it stands. Where a device fails in the run, or a call is to count more than 64 bits tell, the run of the definitions goes on
/// behind the steps that were taken, with the units as that call of the library found them, which is on the unit of this device, or on the one
/// of which so much is to be counted; where a device fails when they are finished, the run had ended as the definitions have it.
pub fn run_loaded(
    _files: &[CFile],
    loaded: LoadedProgram,
    units: UnitTable,
    steps: usize,
) -> ProgramRun
    requires formed { AreWellFormed _files.now }
    requires loaded { IsLoaded _files.now loaded }
    ensures { IsRun _files.now steps (rows_of (λ b. (⟦<dyn Device as Device>⟧ b.vtable).device_state b.value) units) (rows_of (λ b. (⟦<dyn Device as Device>⟧ b.vtable).device_state b.value) result.units) result.program result.objects result.end result.steps }
{
    let LoadedProgram {
        program,
        objects,
        frames,
        arguments,
        texts,
    } = loaded;
    let mut objects = objects;
    let mut buffer = arguments;
    let mut library = UnitLibrary::new(units, texts);
    let ran = run_with(
        _files,
        &program,
        frames,
        &mut buffer,
        &mut objects,
        &mut library,
        steps,
    );
    let mut units = library.into_units();
    let end = finished(&mut units, ran.end);
    ProgramRun {
        end,
        program,
        objects,
        units,
        steps: ran.steps,
    }
}
