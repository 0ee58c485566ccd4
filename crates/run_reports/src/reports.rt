//! What is said of runs.

ghost use Rattle.std.specs.Prelude.{◌≡◌};
ghost use Rattle.linked_programs.specs.LinkedPrograms.{program_of};
ghost use Rattle.run_reports.specs.Reports.{SaysRun, run_status};

use crate::endings::say_ending;
use crate::names::{break_text, fault_shown, function_name};
use f2c_outside::shelves::Shelf;
use linked_programs::LinkedProgram;
use loaded_runs::RunEnd;
use run_bytes::RunBytes;
use run_messages::{say_device_fault, say_fault, say_out_of_steps, say_uncounted};

/// Says on Fault how a run of a program ended whose objects are left so, where there is anything to say, and gives the exit status.
pub fn say_run<H: Shelf>(
    shelf: &mut H,
    program: &LinkedProgram,
    objects: &RunBytes,
    end: RunEnd,
) -> u8
    ensures said { SaysRun (program_of program.now).functions objects.now end (H.state shelf.old) (H.state shelf.new) }
    ensures status { result ≡ run_status objects.now end }
{
    match end {
        RunEnd::Running => {
            say_out_of_steps(shelf);
            8
        }
        RunEnd::Ended(how) => say_ending(shelf, objects, how),
        RunEnd::Broken { reason, function } => {
            say_fault(shelf, break_text(reason), function_name(program, function));
            7
        }
        RunEnd::Unbegun(fault) => {
            say_fault(shelf, fault_shown(fault), function_name(program, 0));
            7
        }
        RunEnd::Failed(unit) => {
            say_device_fault(shelf, unit);
            9
        }
        RunEnd::Uncounted => {
            say_uncounted(shelf);
            15
        }
    }
}
