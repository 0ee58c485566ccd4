//! Programs that are loaded (C89, 3.1.2.4, 3.3.2.2 and 3.7).

ghost use Rattle.std.specs.Prelude.{◌≡◌, IfErr, IfOk};
ghost use Rattle.c_tree.specs.Linking as linking;
ghost use Rattle.linked_programs.specs.LinkedPrograms.{program_of};
ghost use Rattle.c_totality.specs.Totality.{AreWellFormed};
ghost use Rattle.program_loader.specs.Loaded.{IsLoaded, IsNotLoaded};

use crate::links::{LoadFail, link};
use c_tree::file::CFile;
use c_tree::outcome::CValue;
use linked_programs::LinkedProgram;
use program_runner::{CallFrame, frame_room};
use run_bytes::RunBytes;
use runnable_programs::{argument_room, frames_stand};
use started_objects::objects_at_start;
use std::alloc::{AllocError, Global};
use text_rooms::text_room;

/// A program and what its run needs.
#[derive(Drop)]
pub struct LoadedProgram {
    /// The program.
    pub program: LinkedProgram,
    /// Its objects as they start.
    pub objects: RunBytes,
    /// Room for the frames of its functions.
    pub frames: Vec<CallFrame>,
    /// Room for the arguments of each call.
    pub arguments: Vec<CValue>,
    /// Room for the longest text.
    pub texts: Vec<u8>,
}

/// A program of files that keep the rules of linking with what its run needs. An error where memory ran out.
fn with_rooms(
    alloc: Global,
    files: &[CFile],
    program: LinkedProgram,
) -> Result<LoadedProgram, AllocError>
    requires rules { linking.first_broken_rule files.now ≡ None }
    requires linked { program_of program ≡ linking.program files.now }
    ensures { IfOk result (IsLoaded files.now) }
{
    frames_stand(files, &program);
    let objects = objects_at_start(alloc, program.objects.as_slice())?;
    let frames = frame_room(alloc, &program)?;
    let arguments = vec![in alloc; CValue::Null; argument_room(&program)]?;
    let texts = vec![in alloc; 0; text_room(&program, &objects)]?;
    Ok(LoadedProgram {
        program,
        objects,
        frames,
        arguments,
        texts,
    })
}

/// Well-formed files are loaded for a run.
///
/// # Errors
/// `Link` where they break a rule of linking; `NoMemory` where memory ran out.
pub fn load(alloc: Global, files: &[CFile]) -> Result<LoadedProgram, LoadFail>
    requires { AreWellFormed files.now }
    ensures loaded { IfOk result (IsLoaded files.now) }
    ensures refused { IfErr result (IsNotLoaded files.now) }
{
    let program = link(alloc, files)?;
    Ok(with_rooms(alloc, files, program)?)
}
