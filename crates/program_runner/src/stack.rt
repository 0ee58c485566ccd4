//! The stack of active functions, in a place that is made once (C89, 3.3.2.2).

ghost use Rattle.std.specs.Prelude.{◌≡◌, ℕ, ◌<◌, ◌+◌, ◌^◌, ◌∷◌, [], true, false, length, set, get_or, nat_eq, slice_get, IfOk};
ghost use Rattle.program_runner.specs.Numbers.{has};
ghost use Rattle.program_runner.specs.Stacks.{waits_in, flags_in, waiting, numbers_of, IsStack, IsPushed, Popped};

use item_deeds::{CallView, CallWants};
use linked_programs::LinkedProgram;
use std::alloc::{AllocError, Global};

/// An active function, by its number, with its view.
#[derive(Clone, Copy, Debug, PartialEq, Eq)]
pub struct ActiveFunction {
    /// The number.
    pub number: usize,
    /// The view.
    pub view: CallView,
}

/// A place of the stack.
#[derive(Clone, Copy, Debug, PartialEq, Eq)]
pub struct CallFrame {
    /// The function that waits there, where one does.
    pub(crate) waits: ActiveFunction,
    /// Whether the function is active that has the number of the place.
    pub(crate) active: bool,
}

/// The active functions of a run. Those that wait stand from `free` on, the last called first.
#[derive(Drop)]
pub struct CallStack {
    pub(crate) top: ActiveFunction,
    pub(crate) room: Vec<CallFrame>,
    pub(crate) free: usize,
}

/// Room for the frames of the functions of a program, of which none is active twice. An error where memory ran out.
pub fn frame_room(alloc: Global, program: &LinkedProgram) -> Result<Vec<CallFrame>, AllocError>
    ensures { IfOk result (λ frames. length frames.items ≡ length program.now.functions) }
{
    let view = CallView {
        position: 0,
        wants: CallWants::Nothing,
        answer: None,
    };
    let unused = CallFrame {
        waits: ActiveFunction { number: 0, view },
        active: false,
    };
    vec![in alloc; unused; program.functions.len()]
}

/// Notes whether the function of a number is active.
fn note(room: &mut [CallFrame], number: usize, active: bool)
    requires { number < length room.old }
    ensures size { length room.new ≡ length room.old }
    ensures waits { waits_in room.new ≡ waits_in room.old }
    ensures flags { flags_in room.new ≡ set (flags_in room.old) number active }
{
    let waits = room[number].waits;
    room[number] = CallFrame { waits, active };
}

/// Puts a function that waits into a place.
fn put(room: &mut [CallFrame], place: usize, waits: ActiveFunction)
    requires { place < length room.old }
    ensures size { length room.new ≡ length room.old }
    ensures waits { waits_in room.new ≡ set (waits_in room.old) place waits }
    ensures flags { flags_in room.new ≡ flags_in room.old }
{
    let active = room[place].active;
    room[place] = CallFrame { waits, active };
}

/// Notes that no function is active.
fn clear(room: &mut [CallFrame])
    ensures size { length room.new ≡ length room.old }
    ensures flags { (number : ℕ) → number < length room.old → get_or (flags_in room.new) number false ≡ false }
{
    let mut number = 0;
    while number < room.len() {
        note(room, number, false);
        number += 1;
    }
}

/// Notes that one function is active and no other.
fn note_first(room: &mut [CallFrame], number: usize)
    requires { number < length room.old }
    ensures size { length room.new ≡ length room.old }
    ensures flags { (other : ℕ) → other < length room.old → get_or (flags_in room.new) other false ≡ nat_eq other number }
{
    clear(room);
    note(room, number, true);
}

/// Puts a function that waits into a place, and notes that the one that it called is active.
fn put_caller(room: &mut [CallFrame], place: usize, waits: ActiveFunction, called: usize)
    requires place { place < length room.old }
    requires called { called < length room.old }
    ensures size { length room.new ≡ length room.old }
    ensures waits { waits_in room.new ≡ set (waits_in room.old) place waits }
    ensures flags { flags_in room.new ≡ set (flags_in room.old) called true }
{
    put(room, place, waits);
    note(room, called, true);
}

impl CallStack {
    /// A stack of one function, with room for as many as there are frames.
    pub(crate) fn new(frames: Vec<CallFrame>, top: ActiveFunction) -> CallStack
        requires { top.number < length frames.items }
        ensures stack { IsStack (length frames.items) result }
        ensures top { result.top ≡ top }
        ensures alone { waiting result ≡ [] }
    {
        let mut room = frames;
        note_first(&mut room, top.number);
        let free = room.len();
        CallStack { top, room, free }
    }

    /// Whether the function of a number is active.
    pub(crate) fn is_active(&self, number: usize) -> bool
        requires stack { IsStack (length self.now.room.items) self.now }
        requires below { number < length self.now.room.items }
        ensures { result ≡ has number (self.now.top.number ∷ numbers_of (waiting self.now)) }
    {
        self.room[number].active
    }

    /// A function is called, which is not active; the one that calls it waits with a view.
    pub(crate) fn push(&mut self, view: CallView, called: ActiveFunction)
        requires stack { IsStack (length self.old.room.items) self.old }
        requires ready { view.position + 1 < 2 ^ 64 }
        requires below { called.number < length self.old.room.items }
        requires idle { has called.number (self.old.top.number ∷ numbers_of (waiting self.old)) ≡ false }
        ensures { IsPushed self.old self.new view called }
    {
        let place = self.free - 1;
        let number = self.top.number;
        put_caller(
            &mut self.room,
            place,
            ActiveFunction { number, view },
            called.number,
        );
        self.free = place;
        self.top = called;
    }

    /// Goes back to the function that waits for the active one. It answers whether there is one.
    pub(crate) fn pop(&mut self) -> bool
        requires { IsStack (length self.old.room.items) self.old }
        ensures stack { IsStack (length self.old.room.items) self.new }
        ensures popped { Popped self.old self.new result }
    {
        match frame_at(&self.room, self.free) {
            Some(frame) => {
                note(&mut self.room, self.top.number, false);
                self.top = frame.waits;
                self.free += 1;
                true
            }
            None => false,
        }
    }
}

/// The frame at a place, if there is one.
fn frame_at(frames: &[CallFrame], place: usize) -> Option<CallFrame>
    ensures { result ≡ slice_get frames.now place }
{
    frames.get(place).copied()
}
