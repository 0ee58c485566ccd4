//! Main programs and their files, as contracts of calls that do nothing.

ghost use Rattle.main_programs.specs.EmittedMain.{MainsAreEmitted};
ghost use Rattle.main_programs.specs.MainRuns.{MainProgramsRunAlike};

/// Of the function that is built for the lowered text of a main program all is so that is asked of one that simulates it, where its objects stand in the
/// world, and what is said of types and outputs fits its steps.
pub fn mains_are_emitted()
    ensures { MainsAreEmitted }
{}

/// A main program with storage of its own runs as its C file does, for every state of the units, where its unit is lowered to a text and the file is built
/// for that.
pub fn main_programs_run_alike()
    ensures { MainProgramsRunAlike }
{}
