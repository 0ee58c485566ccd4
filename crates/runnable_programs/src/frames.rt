//! The frames of functions among the objects of their program (C89, 3.1.2.4 and 3.7.1).

ghost use Rattle.std.specs.Prelude.{◌≡◌};
ghost use Rattle.c_tree.specs.Linking as linking;
ghost use Rattle.linked_programs.specs.LinkedPrograms.{program_of};
ghost use Rattle.program_runner.specs.Outcomes.{FramesStand};

use c_tree::file::CFile;
use linked_programs::LinkedProgram;

/// Does nothing: the frames of the functions of files, linked, stand among the objects of the program.
pub fn frames_stand(_files: &[CFile], program: &LinkedProgram)
    requires { program_of program.now ≡ linking.program _files.now }
    ensures { FramesStand program.now (program_of program.now).objects }
{
    let _count = program.objects.len();
}
