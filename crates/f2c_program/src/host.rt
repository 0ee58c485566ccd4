//! The top call on the real files and streams.

ghost use Rattle.std.specs.Prelude.{◌≡◌, IfOk};
ghost use Rattle.f2c_outside.specs.HostState.{IsOver};
ghost use Rattle.f2c_outside.specs.Rows.{rows_of};
ghost use Rattle.run_words.specs.RunWords.{drawer_of};
ghost use Rattle.f2c_program.specs.HostRows.{fresh_device, host_rows, rows_over};
ghost use Rattle.f2c_program.specs.Program.{Called, untouched};

use crate::top_call::f2c;
use f2c_outside::devices::Device;
use f2c_outside::host_devices::{HostInput, HostOutput};
use f2c_outside::host_file::HostFile;
use f2c_outside::host_shelf::HostShelf;
use f2c_outside::shelves::Shelf;
use f2c_outside::texts::{Name, NoMemory, Words};
use f2c_outside::unit_table::UnitTable;
use run_words::drawer_names;
use std::alloc::Global;
use std::io::{Input, StdinLock, Stdout};
use std::rt::HostRuntime;

/// Calls the top call on a shelf and over units, and gives its status.
fn status_of_call<H: Shelf>(alloc: Global, words: &Words, shelf: &mut H, units: UnitTable) -> u8
    ensures { Called words.now (rows_of (λ b. (⟦<dyn Device as Device>⟧ b.vtable).device_state b.value) units) (H.state shelf.old) result }
{
    f2c(alloc, words, shelf, units).status
}

/// Calls the top call on the real files and over units, and gives its status.
fn status_over(rt: &HostRuntime, words: &Words, units: UnitTable) -> u8
    ensures { Called words.now (rows_of (λ b. (⟦<dyn Device as Device>⟧ b.vtable).device_state b.value) units) untouched result }
{
    let mut shelf = HostShelf::new(rt.alloc(), rt, rt.stderr());
    status_of_call(rt.alloc(), words, &mut shelf, units)
}

/// A file under its name, as OPEN may take it.
#[derive(Drop)]
struct NamedFile {
    name: Name,
    file: Box<HostFile<HostRuntime>>,
}

/// A device over the file of this name, and the name.
fn named_file(rt: &HostRuntime, name: &Name) -> Result<NamedFile, NoMemory>
    ensures named { IfOk result (λ named. named.name ≡ name.now) }
    ensures over { IfOk result (λ named. IsOver name.now named.file.value) }
    ensures fresh { IfOk result (λ named. ⟦<HostFile<HostRuntime> as Device>⟧.device_state named.file.value ≡ fresh_device) }
{
    let alloc = rt.alloc();
    let file = HostFile::new(alloc, *rt, name.copy(alloc)?);
    Ok(NamedFile {
        name: name.copy(alloc)?,
        file: Box::new(alloc, file)?,
    })
}

/// Calls the top call on the real files, and gives its status: the device of standard input is unit 5 and that of standard output unit 6, and the files
/// that the words name stand in the drawer, in their order.
fn call_over_streams(
    rt: &HostRuntime,
    words: &Words,
    input: HostInput<StdinLock<'static>>,
    output: HostOutput<Stdout>,
) -> Result<u8, NoMemory>
    ensures { IfOk result (Called words.now (rows_over (⟦<HostInput<StdinLock<'static>> as Device>⟧.device_state input) (⟦<HostOutput<Stdout> as Device>⟧.device_state output) (drawer_of words.now)) untouched) }
{
    let alloc = rt.alloc();
    let mut units = UnitTable::new(alloc)?;
    let input = Box::new(alloc, input)?;
    let output = Box::new(alloc, output)?;
    if units.connect(5, input).is_err() || units.connect(6, output).is_err() {
        return Err(NoMemory);
    }
    let names = drawer_names(alloc, words)?;
    for name in names.as_slice() {
        let named = named_file(rt, name)?;
        if units.offer(named.name, named.file).is_err() {
            return Err(NoMemory);
        }
    }
    Ok(status_over(rt, words, units))
}

/// Calls the top call with these words on the real files and streams, and gives its status.
///
/// # Errors
/// `NoMemory` where memory was wanted for the units and refused.
pub fn call_on_host(rt: &HostRuntime, words: &Words) -> Result<u8, NoMemory>
    ensures { IfOk result (Called words.now (host_rows (drawer_of words.now)) untouched) }
{
    let input = HostInput::new(rt.alloc(), rt.reader());
    let output = HostOutput::new(rt.stdout());
    call_over_streams(rt, words, input, output)
}
