//! A shelf in memory, for tests.

ghost use Rattle.std.specs.Prelude.{◌≡◌, ◌+◌, ◌-◌, ◌<◌, ◌≤◌, [], ◌∷◌, ◌++◌, length, min, take, drop, map, slice_get, option_copied, IfSome, IfNone, IfOk, OnOk, OnErr};
ghost use Rattle.f2c_outside.specs.Shelf.{IsSource, IsTarget, IsFile, IsWriting, HasCause, StartedRead, Took, StartedWrite, Put, Stopped, Asked};
ghost use Rattle.f2c_outside.specs.Memory.{empty_memory, with_new_file, with_input, file_of, IsNewest, IsOpen, text_read, LacksIn, IsSourceOf, IsTargetOf, IsGrown, IsExtended, active_of, state_of, Counted, CountedGrowth};
ghost use Rattle.f2c_outside.specs.Plan.{also_failing};
ghost use Rattle.f2c_outside.specs.Entries.{named};

use crate::plan::Plan;
use crate::shelves::{Place, Shelf, ShelfFault};
use crate::texts::{Name, NoMemory};
use std::alloc::Global;
use std::marker::Model;

/// A file under its name.
#[derive(Drop)]
struct Entry {
    name: Name,
    bytes: Vec<u8>,
}

/// The place that is open, and a file by its number among the entries.
#[derive(Clone, Copy)]
enum Opened {
    Nothing,
    Input,
    File(usize),
    Output,
    Fault,
    Last,
}

/// A shelf that holds its files and streams in memory, and fails where it is told to.
#[derive(Drop)]
pub struct MemoryShelf {
    entries: Vec<Entry>,
    input: Vec<u8>,
    output: Vec<u8>,
    fault_text: Vec<u8>,
    opened: Opened,
    taken: usize,
    plan: Plan,
    starved: u64,
}

impl Model for MemoryShelf {
    ghost use Rattle.std.specs.Prelude.{List, map, drop, length, ◌≤◌};
    ghost use Rattle.f2c_outside.specs.Memory.{Memory, Named, active_of, text_read, IsOpen};
    ghost use Rattle.f2c_outside.specs.Entries.{named};

    ghost Value = { Memory };

    ghost view = { λ m. record {
      files = map named m.entries.items;
      input = m.input.items;
      output = m.output.items;
      fault = m.fault_text.items;
      active = active_of m.opened (map named m.entries.items);
      left = drop m.taken (text_read m.opened m.input.items (map named m.entries.items));
      plan = m.plan;
      starved = m.starved;
    } };

    ghost invariant = { λ m.
        IsOpen m.opened (map named m.entries.items)
        × (m.taken ≤ length (text_read m.opened m.input.items (map named m.entries.items))) };
}

impl MemoryShelf {
    /// A shelf without files, with empty streams, no call of which is to fail.
    pub fn new(alloc: Global) -> Result<MemoryShelf, NoMemory>
        ensures { IfOk result (λ shelf. shelf ≡ empty_memory) }
    {
        Ok(MemoryShelf {
            entries: Vec::new(alloc),
            input: Vec::new(alloc),
            output: Vec::new(alloc),
            fault_text: Vec::new(alloc),
            opened: Opened::Nothing,
            taken: 0,
            plan: Plan::new(alloc),
            starved: 0,
        })
    }

    /// Puts a file on the shelf, in place of one that has the name, and ends what was active.
    /// After `NoMemory` the shelf is as before.
    pub fn set_file(&mut self, name: Name, bytes: &[u8]) -> Result<(), NoMemory>
        ensures ok { OnOk result (self.new ≡ with_new_file name bytes.now self.old) }
        ensures err { OnErr result (self.new ≡ self.old) }
    {
        let alloc = *self.entries.allocator();
        let bytes = Vec::from_slice(alloc, bytes)?;
        self.entries.push(Entry { name, bytes })?;
        self.opened = Opened::Nothing;
        self.taken = 0;
        Ok(())
    }

    /// Gives Input these bytes, and ends what was active. After `NoMemory` the shelf is as before.
    pub fn set_input(&mut self, bytes: &[u8]) -> Result<(), NoMemory>
        ensures ok { OnOk result (self.new ≡ with_input bytes.now self.old) }
        ensures err { OnErr result (self.new ≡ self.old) }
    {
        let alloc = *self.input.allocator();
        self.input = Vec::from_slice(alloc, bytes)?;
        self.opened = Opened::Nothing;
        self.taken = 0;
        Ok(())
    }

    /// The call of this number is to fail, too. Calls of the trait `Shelf` are counted from 1.
    /// After `NoMemory` the shelf is as before.
    pub fn fail_at(&mut self, call: u64) -> Result<(), NoMemory>
        ensures ok { OnOk result (self.new ≡ record self.old { plan = also_failing call self.old.plan }) }
        ensures err { OnErr result (self.new ≡ self.old) }
    {
        self.plan.fail_at(call)
    }

    /// The bytes of the file of this name, or `None` where there is none.
    pub fn file(&self, name: &Name) -> Option<&[u8]>
        ensures { option_copied result ≡ file_of self.now.files name.now }
    {
        let number = newest(self.entries.as_slice(), name)?;
        Some(self.entries[number].bytes.as_slice())
    }

    /// What was put on Output.
    pub fn output(&self) -> &[u8]
        ensures { result.now ≡ self.now.output }
    {
        self.output.as_slice()
    }

    /// What was put on Fault.
    pub fn fault_text(&self) -> &[u8]
        ensures { result.now ≡ self.now.fault }
    {
        self.fault_text.as_slice()
    }
}

impl Shelf for MemoryShelf {
    ghost state = { state_of };

    fn start_read(&mut self, place: &Place) -> Result<(), ShelfFault>
        requires { IsSource place.now }
        ensures cause { HasCause (state_of self.old).faults (state_of self.new).faults result }
        ensures started { StartedRead place.now (state_of self.old) (state_of self.new) result }
        ensures counted { Counted self.old self.new result }
    {
        self.opened = Opened::Nothing;
        self.taken = 0;
        if self.plan.next_fails() {
            return Err(ShelfFault::Failed);
        }
        match source_of(place, self.entries.as_slice()) {
            Some(opened) => {
                self.opened = opened;
                Ok(())
            }
            None => Err(ShelfFault::Missing),
        }
    }

    fn take(&mut self, into: &mut [u8]) -> Result<usize, ShelfFault>
        ensures cause { HasCause (state_of self.old).faults (state_of self.new).faults result }
        ensures took { Took (state_of self.old) (state_of self.new) into.old into.new result }
        ensures counted { Counted self.old self.new result }
    {
        if self.plan.next_fails() {
            return Err(ShelfFault::Failed);
        }
        let text = read_text(self.opened, self.input.as_slice(), self.entries.as_slice());
        let count = copy_front(&text[self.taken..], into);
        self.taken += count;
        Ok(count)
    }

    fn start_write(&mut self, place: &Place) -> Result<(), ShelfFault>
        requires { IsTarget place.now }
        ensures cause { HasCause (state_of self.old).faults (state_of self.new).faults result }
        ensures started { StartedWrite place.now (state_of self.old) (state_of self.new) result }
        ensures counted { CountedGrowth self.old self.new result }
    {
        self.opened = Opened::Nothing;
        self.taken = 0;
        if self.plan.next_fails() {
            return Err(ShelfFault::Failed);
        }
        match target_of(place, &mut self.entries) {
            Ok(opened) => {
                self.opened = opened;
                Ok(())
            }
            Err(_) => {
                self.starved = self.starved.saturating_add(1);
                Err(ShelfFault::Failed)
            }
        }
    }

    fn put(&mut self, piece: &[u8]) -> Result<usize, ShelfFault>
        requires { IsWriting (state_of self.old).active }
        ensures cause { HasCause (state_of self.old).faults (state_of self.new).faults result }
        ensures put { Put piece.now (state_of self.old) (state_of self.new) result }
        ensures counted { CountedGrowth self.old self.new result }
    {
        if self.plan.next_fails() {
            return Err(ShelfFault::Failed);
        }
        match extend_opened(
            self.opened,
            &mut self.output,
            &mut self.fault_text,
            &mut self.entries,
            piece,
        ) {
            Ok(()) => Ok(piece.len()),
            Err(_) => {
                self.starved = self.starved.saturating_add(1);
                Err(ShelfFault::Failed)
            }
        }
    }

    fn stop(&mut self) -> Result<(), ShelfFault>
        ensures cause { HasCause (state_of self.old).faults (state_of self.new).faults result }
        ensures stopped { Stopped (state_of self.old) (state_of self.new) result }
        ensures counted { Counted self.old self.new result }
    {
        self.opened = Opened::Nothing;
        self.taken = 0;
        if self.plan.next_fails() {
            return Err(ShelfFault::Failed);
        }
        Ok(())
    }

    fn is_there(&mut self, name: &Name) -> Result<bool, ShelfFault>
        ensures cause { HasCause (state_of self.old).faults (state_of self.new).faults result }
        ensures asked { Asked name.now (state_of self.old) (state_of self.new) result }
        ensures counted { Counted self.old self.new result }
    {
        if self.plan.next_fails() {
            return Err(ShelfFault::Failed);
        }
        Ok(newest(self.entries.as_slice(), name).is_some())
    }
}

/// The number of the last of the entries of this name.
fn newest(entries: &[Entry], name: &Name) -> Option<usize>
    ensures { IsNewest result (map named entries.now) name.now }
{
    let mut found = None;
    for (number, entry) in entries.iter().enumerate() {
        if name.as_bytes() == entry.name.as_bytes() {
            found = Some(number);
        }
    }
    found
}

/// Copies the first bytes of `from` that fit to the front of `into`, and answers how many.
fn copy_front(from: &[u8], into: &mut [u8]) -> usize
    ensures count { result ≡ min (length from.now) (length into.old) }
    ensures copied { into.new ≡ take result from.now ++ drop result into.old }
{
    let count = from.len().min(into.len());
    into[..count].copy_from_slice(&from[..count]);
    count
}

/// The text that is being read, empty where none is.
fn read_text<'a>(opened: Opened, input: &'a [u8], entries: &'a [Entry]) -> &'a [u8]
    requires { IsOpen opened (map named entries.now) }
    ensures { result.now ≡ text_read opened input.now (map named entries.now) }
{
    match opened {
        Opened::Input => input,
        Opened::File(number) => entries[number].bytes.as_slice(),
        _ => &[],
    }
}

/// Where a place that can be read stands, or `None` where it is a file that is not there.
fn source_of(place: &Place, entries: &[Entry]) -> Option<Opened>
    requires { IsSource place.now }
    ensures missing { IfNone result (IsFile place.now) }
    ensures lacks { IfNone result (LacksIn place.now (map named entries.now)) }
    ensures there { IfSome result (IsSourceOf place.now (map named entries.now)) }
{
    match place {
        Place::File(name) => {
            let number = newest(entries, name)?;
            Some(Opened::File(number))
        }
        _ => Some(Opened::Input),
    }
}

/// Where a place that can be written stands. A file is made anew, empty.
fn target_of(place: &Place, entries: &mut Vec<Entry>) -> Result<Opened, NoMemory>
    requires { IsTarget place.now }
    ensures ok { IfOk result (IsTargetOf place.now (map named entries.old.items) (map named entries.new.items)) }
    ensures err { OnErr result (entries.new.items ≡ entries.old.items) }
{
    match place {
        Place::File(name) => {
            push_empty(name, entries)?;
            Ok(Opened::Last)
        }
        Place::Fault => Ok(Opened::Fault),
        _ => Ok(Opened::Output),
    }
}

/// Makes an empty file of this name.
fn push_empty(name: &Name, entries: &mut Vec<Entry>) -> Result<(), NoMemory>
    ensures ok { OnOk result (map named entries.new.items ≡ map named entries.old.items ++ record { name = name.now; bytes = [] } ∷ []) }
    ensures err { OnErr result (entries.new.items ≡ entries.old.items) }
{
    let alloc = *entries.allocator();
    let Ok(name) = Name::new(alloc, name.as_bytes()) else {
        return Err(NoMemory);
    };
    let bytes = Vec::new(alloc);
    entries.push(Entry { name, bytes })?;
    Ok(())
}

/// Puts a piece behind the bytes of the last file.
fn extend_last(entries: &mut Vec<Entry>, piece: &[u8]) -> Result<(), NoMemory>
    requires { 0 < length entries.old.items }
    ensures ok { OnOk result (IsGrown piece.now (map named entries.old.items) (map named entries.new.items)) }
    ensures err { OnErr result (map named entries.new.items ≡ map named entries.old.items) }
{
    let last = entries.len() - 1;
    let entry = &mut entries[last];
    entry.bytes.extend_from_slice(piece)?;
    Ok(())
}

/// Puts a piece behind a text.
fn extend(text: &mut Vec<u8>, piece: &[u8]) -> Result<(), NoMemory>
    ensures ok { OnOk result (text.new.items ≡ text.old.items ++ piece.now) }
    ensures err { OnErr result (text.new.items ≡ text.old.items) }
{
    text.extend_from_slice(piece)?;
    Ok(())
}

/// Puts a piece behind what the opened place holds.
fn extend_opened(
    opened: Opened,
    output: &mut Vec<u8>,
    fault_text: &mut Vec<u8>,
    entries: &mut Vec<Entry>,
    piece: &[u8],
) -> Result<(), NoMemory>
    requires sound { IsOpen opened (map named entries.old.items) }
    requires writes { IsWriting (active_of opened (map named entries.old.items)) }
    ensures ok { OnOk result
        (IsExtended opened piece.now (map named entries.old.items) (map named entries.new.items) output.old.items
        output.new.items fault_text.old.items fault_text.new.items) }
    ensures files { OnErr result (map named entries.new.items ≡ map named entries.old.items) }
    ensures output { OnErr result (output.new.items ≡ output.old.items) }
    ensures fault { OnErr result (fault_text.new.items ≡ fault_text.old.items) }
{
    match opened {
        Opened::Output => extend(output, piece),
        Opened::Fault => extend(fault_text, piece),
        Opened::Last => extend_last(entries, piece),
        Opened::Nothing | Opened::Input | Opened::File(_) => unreachable!(),
    }
}
