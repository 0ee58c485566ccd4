//! The names of functions by their numbers (C89, 3.7.1).

ghost use Rattle.std.specs.Prelude.{◌≡◌, slice_get, option_map};
ghost use Rattle.linked_programs.specs.LinkedPrograms.{program_of};
ghost use Rattle.run_reports.specs.Reports.{name_shown, break_name};

use c_tree::outcome::CFault;
use linked_programs::LinkedProgram;
use run_library::RunBreak;
use run_messages::fault_text;

/// The name of the function of a number in a program, as a message gives it: a question mark where the program has no function of that number.
pub fn function_name(program: &LinkedProgram, number: usize) -> &[u8]
    ensures { result.now ≡ name_shown (option_map (λ function. function.name) (slice_get (program_of program.now).functions number)) }
{
    match program.functions.get(number) {
        Some(function) => function.name.as_slice(),
        None => b"?",
    }
}

/// Why a run cannot go on, as a message gives it.
pub(crate) fn break_text(reason: RunBreak) -> &'static [u8]
    ensures { result.now ≡ break_name reason }
{
    match reason {
        RunBreak::Fault(fault) => fault_text(fault),
        RunBreak::Meaningless => b"NoMeaning",
    }
}

/// A fault, as a message gives it.
pub(crate) fn fault_shown(fault: CFault) -> &'static [u8]
    ensures { result.now ≡ break_name (RunBreak.Fault fault) }
{
    fault_text(fault)
}
