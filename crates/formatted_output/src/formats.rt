//! The format that a pointer gives, at the start of a transfer (ANSI X3.9-1978, 13.1).

ghost use Rattle.std.specs.Prelude.{◌≡◌, ◌≤◌, length, slice_get};
ghost use Rattle.c_tree.specs.FormatsGiven.{format_at};
ghost use Rattle.formatted_output.specs.Fronts.{front_of, front_at, IsFrontOf, ReadsFormat};

use c_tree::outcome::{CFault, CValue};
use edit_rules::check_format;
use run_bytes::RunBytes;

/// The most bytes that a format has.
const FORMAT_BYTES: usize = 2048;

/// How many bytes from a place on are set, and why the one behind them cannot be read.
#[derive(Clone, Copy)]
struct SetFront {
    size: usize,
    fault: CFault,
}

/// The bytes from an offset of an object on that are set.
fn front_in(run: &RunBytes, object: usize, offset: usize) -> SetFront
    ensures { IsFrontOf (front_of (slice_get run.now object) offset) result }
{
    let extent = run.extent(object).unwrap_or(0);
    let most = extent.saturating_sub(offset);
    for size in 0..most {
        let place = CValue::Pointer {
            object,
            offset: offset + size,
        };
        if let Err(fault) = run.text(place, 1) {
            return SetFront { size, fault };
        }
    }
    let fault = match run.held_type(object) {
        Some(_) => CFault::Kind,
        None => CFault::Outside,
    };
    SetFront { size: most, fault }
}

/// The bytes from where a pointer points to on that are set.
fn set_front(run: &RunBytes, pointer: CValue) -> SetFront
    ensures { IsFrontOf (front_at run.now pointer) result }
{
    match pointer {
        CValue::Pointer { object, offset } => front_in(run, object, offset),
        CValue::Null => SetFront {
            size: 0,
            fault: CFault::Outside,
        },
        _ => SetFront {
            size: 0,
            fault: CFault::Kind,
        },
    }
}

/// Copies the format that a pointer gives to the front of a buffer, and says whether there is one, of 2,048 bytes at most.
///
/// # Errors
/// The fault of the first byte that cannot be read where the format does not end before it.
pub fn read_format(run: &RunBytes, pointer: CValue, into: &mut [u8]) -> Result<bool, CFault>
    requires { 2048 ≤ length into.old }
    ensures { ReadsFormat (format_at run.now pointer) into.new result }
{
    let front = set_front(run, pointer);
    match run.text(pointer, front.size) {
        Ok(text) => match check_format(text) {
            Ok(size) if size <= FORMAT_BYTES => {
                into[..size].copy_from_slice(&text[..size]);
                Ok(true)
            }
            Ok(_) => Ok(false),
            Err(bad) if bad.place < text.len() => Ok(false),
            Err(_) => Err(front.fault),
        },
        Err(fault) => Err(fault),
    }
}
