//! The second layer: a list of steps becomes a function.

ghost use Rattle.std.specs.Prelude.{◌≡◌, ℕ, ◌+◌, ◌*◌, ◌^◌, ◌<◌, ◌++◌, map, length, IfOk, OnOk};
ghost use Rattle.small_instance.specs.TargetLanguage.{code_of};
ghost use Rattle.small_instance.specs.Translation.{temporary_cell, slot_cell, spot_of, leaf_of, passed_spot, function_called, number_passed, item_of, inner_code, wrapper_code};

use crate::lowered::{Atom, Passed, Step};
use crate::source::Place;
use crate::target::{Function, Item, Leaf, Spot};
use std::alloc::{AllocError, Global};

/// The cell of the frame in which a temporary stands.
fn temporary_cell(answer: bool) -> usize
    ensures { result ≡ temporary_cell answer }
{
    if answer { 4 } else { 3 }
}

/// The cell of the frame in which a slot stands.
fn slot_cell(second: bool) -> usize
    ensures { result ≡ slot_cell second }
{
    if second { 6 } else { 5 }
}

fn spot_of(place: Place) -> Spot
    ensures { result ≡ spot_of place }
{
    match place {
        Place::Common(k) => Spot::Block(k),
        Place::First => Spot::Through(0),
        Place::Second => Spot::Through(1),
    }
}

fn leaf_of(atom: Atom) -> Leaf
    ensures { result ≡ leaf_of atom }
{
    match atom {
        Atom::Constant(n) => Leaf::Literal(n),
        Atom::Load(place) => Leaf::Read(spot_of(place)),
        Atom::Temporary(answer) => Leaf::Read(Spot::Local(temporary_cell(answer))),
    }
}

/// The spot whose address a call passes.
fn passed_spot(second: bool, passed: Passed) -> Spot
    ensures { result ≡ passed_spot second passed }
{
    match passed {
        Passed::Cell(place) => spot_of(place),
        Passed::Slot => Spot::Local(slot_cell(second)),
    }
}

/// The function of a unit, or its wrapper, under which its second name is called.
fn function_called(unit: u32, by_second: bool) -> usize
    ensures { result ≡ function_called unit by_second }
{
    if by_second {
        2 * (unit as usize) + 1
    } else {
        2 * (unit as usize)
    }
}

/// A direct call says that it is by the first name; a wrapper takes no number.
fn number_passed(by_second: bool) -> Option<usize>
    ensures { result ≡ number_passed by_second }
{
    if by_second { None } else { Some(0) }
}

fn item_of(step: Step) -> Item
    ensures { result ≡ item_of step }
{
    match step {
        Step::Select(n) => Item::IfNot(Spot::Local(2), n),
        Step::Keep(answer, atom) => Item::Assign(
            Spot::Local(temporary_cell(answer)),
            leaf_of(atom),
        ),
        Step::Fill(second, atom) => Item::Assign(Spot::Local(slot_cell(second)), leaf_of(atom)),
        Step::Pass => Item::Nothing,
        Step::Put(place, left, right) => Item::AssignSum(
            spot_of(place),
            leaf_of(left),
            leaf_of(right),
        ),
        Step::Unless(place, n) => Item::IfZero(spot_of(place), n),
        Step::Jump(n) => Item::Goto(n),
        Step::Call(unit, by_second, first, second) => Item::Invoke(
            temporary_cell(true),
            function_called(unit, by_second),
            passed_spot(false, first),
            passed_spot(true, second),
            number_passed(by_second),
        ),
        Step::Back(atom) => Item::Return(leaf_of(atom)),
        Step::Halt => Item::Exit,
    }
}

/// The function of unit `number`, whose frame has the two addresses, the number of the name, the two
/// temporaries and the two slots. The only error is want of memory.
pub fn emit(alloc: Global, number: usize, steps: &[Step]) -> Result<Function, AllocError>
    requires { number < 2 ^ 32 }
    ensures { IfOk result (λ function. code_of function ≡ inner_code number steps.now) }
{
    let mut items = Vec::new(alloc);
    for step in steps {
        items.push(item_of(*step))?;
    }
    Ok(Function {
        object: 2 * number + 1,
        cells: 7,
        selected: true,
        items,
    })
}

/// The wrapper of unit `number`: it passes its parameters on, says that the call is by the second
/// name, and hands the answer on. The only error is want of memory.
pub fn wrap(alloc: Global, number: usize) -> Result<Function, AllocError>
    requires { number < 2 ^ 32 }
    ensures { IfOk result (λ function. code_of function ≡ wrapper_code number) }
{
    let mut items = Vec::new(alloc);
    items.push(Item::Invoke(2, 2 * number, Spot::Through(0), Spot::Through(1), Some(1)))?;
    items.push(Item::Return(Leaf::Read(Spot::Local(2))))?;
    Ok(Function {
        object: 2 * number + 2,
        cells: 3,
        selected: false,
        items,
    })
}
