//! What is said of the endings of runs (ANSI X3.9-1978, 11.12 and 12.7).

ghost use Rattle.std.specs.Prelude.{◌≡◌};
ghost use Rattle.unit_library.specs.Endings.{text_ending, range_ending, ending_of};
ghost use Rattle.library_calls.specs.Arguments as found;
ghost use Rattle.run_reports.specs.Reports.{SaysEnding, ending_status};

use c_tree::outcome::CValue;
use f2c_outside::shelves::Shelf;
use library_calls::{ending_text, report_of};
use run_bytes::RunBytes;
use run_messages::{say_io_error, say_range, say_stop};
use unit_library::RunEnding;

/// The end of the main program, or STOP without a text, of which nothing is said.
fn nothing_said<H: Shelf>(_shelf: &mut H) -> u8
    ensures kept { H.state _shelf.new ≡ H.state _shelf.old }
    ensures status { result ≡ 0 }
{
    0
}

/// Says the text of STOP, and gives the exit status.
fn say_text<H: Shelf>(shelf: &mut H, objects: &RunBytes, pointer: CValue, size: CValue) -> u8
    ensures said { SaysEnding (text_ending (found.ending_text objects.now pointer size)) (H.state shelf.old) (H.state shelf.new) }
    ensures status { result ≡ ending_status (text_ending (found.ending_text objects.now pointer size)) }
{
    match ending_text(objects, pointer, size) {
        Ok(text) => {
            if text.is_empty() {
                nothing_said(shelf)
            } else {
                say_stop(shelf, text);
                0
            }
        }
        Err(_) => nothing_said(shelf),
    }
}

/// Says which place is outside its bounds, and gives the exit status.
fn say_place<H: Shelf>(
    shelf: &mut H,
    objects: &RunBytes,
    variable: CValue,
    number: CValue,
    unit: CValue,
    card: CValue,
) -> u8
    ensures said { SaysEnding (range_ending (found.report_of objects.now variable number unit card)) (H.state shelf.old) (H.state shelf.new) }
    ensures status { result ≡ ending_status (range_ending (found.report_of objects.now variable number unit card)) }
{
    match report_of(objects, variable, number, unit, card) {
        Ok(report) => {
            say_range(
                shelf,
                report.variable,
                report.number,
                report.unit,
                report.card,
            );
            12
        }
        Err(_) => nothing_said(shelf),
    }
}

/// Says how a run ended whose objects are left so, and gives the exit status.
pub(crate) fn say_ending<H: Shelf>(shelf: &mut H, objects: &RunBytes, how: RunEnding) -> u8
    ensures said { SaysEnding (ending_of objects.now how) (H.state shelf.old) (H.state shelf.new) }
    ensures status { result ≡ ending_status (ending_of objects.now how) }
{
    match how {
        RunEnding::Plain => nothing_said(shelf),
        RunEnding::Stop { pointer, size } => say_text(shelf, objects, pointer, size),
        RunEnding::Io(number) => {
            say_io_error(shelf, number);
            10
        }
        RunEnding::Range {
            variable,
            number,
            unit,
            card,
        } => say_place(shelf, objects, variable, number, unit, card),
    }
}
