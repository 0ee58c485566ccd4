//! Room for texts (ANSI X3.9-1978, 6.2.2.2).

ghost use Rattle.std.specs.Prelude.{◌≡◌};
ghost use Rattle.linked_programs.specs.LinkedPrograms.{program_of};
ghost use Rattle.run_library.specs.Room.{HasRoom};

use linked_programs::LinkedProgram;
use run_bytes::RunBytes;

/// So many bytes that no object of a program has more bytes or values. The objects hold what they start with.
pub fn text_room(program: &LinkedProgram, objects: &RunBytes) -> usize
    requires { objects.now ≡ (program_of program.now).objects }
    ensures { HasRoom result objects.now }
{
    let mut room = 0;
    for number in 0..program.objects.len() {
        if let Some(size) = objects.extent(number) {
            room = size.max(room);
        }
    }
    room
}
