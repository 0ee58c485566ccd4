//! The command that runs C files.

ghost use Rattle.std.specs.Prelude.{◌≡◌, Ok, map, IfOk};
ghost use Rattle.std.specs.List.{All};
ghost use Rattle.c_totality.specs.Totality.{AreWellFormed};
ghost use Rattle.f2c_outside.specs.Rows.{rows_of};
ghost use Rattle.f2c_outside.specs.Shelf.{IsFile, ShelfState};
ghost use Rattle.f2c_outside.specs.declared.shelves.Place.TheVariants as place_of_name;
ghost use Rattle.c_sources.specs.CFiles.{AreTreesRead};
ghost use Rattle.run_words.specs.RunWords.{run_of};
ghost use Rattle.program_loader.specs.Loaded.{IsLoaded};
ghost use Rattle.run_command.specs.RunRows.{c_places, Runs, RunEnded};

use crate::failing::{say_no_memory, say_unasked, say_unloaded, say_unread};
use c_sources::read_c_files;
use c_tree::file::CFile;
use f2c_outside::devices::Device;
use f2c_outside::shelves::{Place, Shelf};
use f2c_outside::texts::{Name, NoMemory, Words};
use f2c_outside::unit_table::UnitTable;
use loaded_runs::run_loaded;
use plain_data::Items;
use program_loader::{LoadedProgram, load};
use run_reports::say_run;
use run_words::{RunRequest, run_of_words};
use std::alloc::Global;

/// How a command that runs C files ended.
#[derive(Drop)]
pub struct RunDone {
    /// The exit status.
    pub status: u8,
    /// The units that were handed in, as the run left them.
    pub units: UnitTable,
}

/// The places of files of these names.
#[tactic(auto, using(std::proofs::lemmas::Grind::common_steps))]
fn places_of(alloc: Global, names: &[Name]) -> Result<Items<Place>, NoMemory>
    ensures { IfOk result (λ places. places ≡ map place_of_name.File names.now) }
{
    let mut places = Items::new(alloc);
    for name in names {
        places.push(Place::File(name.copy(alloc)?))?;
    }
    Ok(places)
}

/// Runs a loaded program, says how it ended, and gives the exit status and the units. It takes no memory.
fn run_and_say<H: Shelf>(
    _words: &Words,
    request: &RunRequest,
    files: &[CFile],
    shelf: &mut H,
    loaded: LoadedProgram,
    units: UnitTable,
) -> RunDone
    requires formed { AreWellFormed files.now }
    requires loaded { IsLoaded files.now loaded }
    ensures { (b : ShelfState) → Runs _words.now request.now files.now b (H.state shelf.old) → RunEnded _words.now (rows_of (λ b. (⟦<dyn Device as Device>⟧ b.vtable).device_state b.value) units) (rows_of (λ b. (⟦<dyn Device as Device>⟧ b.vtable).device_state b.value) result.units) b (H.state shelf.new) result.status }
{
    let run = run_loaded(files, loaded, units, request.steps as usize);
    let status = say_run(shelf, &run.program, &run.objects, run.end);
    RunDone {
        status,
        units: run.units,
    }
}

/// Links and runs files that were read.
fn run_files<H: Shelf>(
    alloc: Global,
    words: &Words,
    request: &RunRequest,
    files: &[CFile],
    shelf: &mut H,
    units: UnitTable,
) -> RunDone
    requires { AreWellFormed files.now }
    ensures { (b : ShelfState) → run_of words.now ≡ Ok request.now → AreTreesRead (c_places request.now) files.now b (H.state shelf.old) → RunEnded words.now (rows_of (λ b. (⟦<dyn Device as Device>⟧ b.vtable).device_state b.value) units) (rows_of (λ b. (⟦<dyn Device as Device>⟧ b.vtable).device_state b.value) result.units) b (H.state shelf.new) result.status }
{
    match load(alloc, files) {
        Ok(loaded) => run_and_say(words, request, files, shelf, loaded, units),
        Err(why) => {
            let status = say_unloaded(shelf, words, why);
            RunDone { status, units }
        }
    }
}

/// Reads the C files that words ask for, and runs them.
fn run_places<H: Shelf>(
    alloc: Global,
    words: &Words,
    request: &RunRequest,
    places: &[Place],
    shelf: &mut H,
    units: UnitTable,
) -> RunDone
    requires files { All IsFile places.now }
    requires asked { run_of words.now ≡ Ok request.now }
    requires named { places.now ≡ c_places request.now }
    ensures { RunEnded words.now (rows_of (λ b. (⟦<dyn Device as Device>⟧ b.vtable).device_state b.value) units) (rows_of (λ b. (⟦<dyn Device as Device>⟧ b.vtable).device_state b.value) result.units) (H.state shelf.old) (H.state shelf.new) result.status }
{
    match read_c_files(alloc, shelf, places) {
        Ok(files) => run_files(alloc, words, request, files.as_slice(), shelf, units),
        Err(why) => {
            let status = say_unread(shelf, words, why);
            RunDone { status, units }
        }
    }
}

/// Runs the C files that words ask for.
#[tactic(auto, using(crate::proofs::PlaceLaws::all_files))]
fn run_request<H: Shelf>(
    alloc: Global,
    words: &Words,
    request: &RunRequest,
    shelf: &mut H,
    units: UnitTable,
) -> RunDone
    requires { run_of words.now ≡ Ok request.now }
    ensures { RunEnded words.now (rows_of (λ b. (⟦<dyn Device as Device>⟧ b.vtable).device_state b.value) units) (rows_of (λ b. (⟦<dyn Device as Device>⟧ b.vtable).device_state b.value) result.units) (H.state shelf.old) (H.state shelf.new) result.status }
{
    match places_of(alloc, request.files.as_slice()) {
        Ok(places) => run_places(alloc, words, request, places.as_slice(), shelf, units),
        Err(_) => {
            let status = say_no_memory(shelf, words);
            RunDone { status, units }
        }
    }
}

/// Runs the C files that the words of a command line name, whose first is `-run`, over these external units: the files are read to their ends, and,
/// where each spells a tree and no rule of linking is broken, their program is run from its main program on, for as many steps as the words say at most,
/// and the devices of the connected units are finished. How it ended is said on Fault.
///
/// Where the devices tell their records, the run is that of the definitions, step by step, and the units are left as it leaves them. At a fault they are left by the
/// step that has it: as the step found them, where it calls no function of the library; as the function left them, where the one that it calls replies, so that the fault
/// is in the store of what it gave; and where that call breaks, as the step found them, unless it is of the items or the end of an input or output statement in progress. Of
/// a fault there, in input on a unit or in formatted output on one, it is said that all other units stand as the step found them, and that its own is connected exactly if it
/// was, and nothing of the records that it holds or where it stands. Where a device fails in the run, the run of the definitions goes on at that step, with the units as
/// the call found them that failed; where one fails when the devices are finished, the run had ended as the definitions have it. From the first step on no memory is taken.
///
/// The status is 0 where the run ended at the end of the main program or by STOP; 2 where the words ask for no run; 3 where a file is not there or the shelf failed; 5 where
/// memory was wanting, and no run began; 6 where a file is not in the C subset or a rule of linking is broken; 7 at a fault; 8 where the run did not end within its
/// steps; 9 where the device of a unit failed; 10 where it ended by an error of input or output; 12 at a place outside its declared bounds; 15 where a
/// call of the library on a unit was to count more than 64 bits tell, which is only where that unit stands behind 2^53 records or more then. The run of the definitions goes
/// on at the step that makes this call, with the units as the call found them.
pub fn run_c_files<H: Shelf>(
    alloc: Global,
    words: &Words,
    shelf: &mut H,
    units: UnitTable,
) -> RunDone
    requires { Unit {0} }
    ensures { RunEnded words.now (rows_of (λ b. (⟦<dyn Device as Device>⟧ b.vtable).device_state b.value) units) (rows_of (λ b. (⟦<dyn Device as Device>⟧ b.vtable).device_state b.value) result.units) (H.state shelf.old) (H.state shelf.new) result.status }
{
    match run_of_words(alloc, words) {
        Ok(request) => run_request(alloc, words, &request, shelf, units),
        Err(why) => {
            let status = say_unasked(shelf, words, why);
            RunDone { status, units }
        }
    }
}
