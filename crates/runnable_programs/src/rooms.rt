//! Room for the arguments of calls (C89, 3.3.2.2).

ghost use Rattle.std.specs.Prelude.{◌≡◌};
ghost use Rattle.item_deeds.specs.Deeds as deeds;
ghost use Rattle.program_runner.specs.Events.{HasRoom};
ghost use Rattle.program_runner.specs.Outcomes.{HasArgumentRoom};

use linked_programs::LinkedProgram;
use linked_terms::LinkedItem;

/// How many arguments an item gives the function that it calls.
fn argument_count(item: &LinkedItem) -> usize
    ensures { result ≡ deeds.argument_count item.now }
{
    match item {
        LinkedItem::Invoke { arguments, .. } => arguments.len(),
        _ => 0,
    }
}

/// So many values that they are enough for the arguments of each call of a function.
fn code_room(code: &[LinkedItem]) -> usize
    ensures { HasRoom result code.now }
{
    let mut room = 0;
    for item in code {
        room = argument_count(item).max(room);
    }
    room
}

/// So many values that they are enough for the arguments of each call of a program.
pub fn argument_room(program: &LinkedProgram) -> usize
    ensures { HasArgumentRoom program.now result }
{
    let mut room = 0;
    for function in program.functions.as_slice() {
        room = code_room(function.code.as_slice()).max(room);
    }
    room
}
