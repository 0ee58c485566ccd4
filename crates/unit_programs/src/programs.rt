//! Units that call each other and their files, as contracts of calls that do nothing.

ghost use Rattle.unit_programs.specs.EmittedFile.{UnitsAreEmitted};
ghost use Rattle.unit_programs.specs.UnitRuns.{UnitProgramsRunAlike};

/// Of each function of the files all is so that is asked of one that simulates the lowered text of its unit, with calls and answers.
pub fn units_are_emitted()
    ensures { UnitsAreEmitted }
{}

/// A set of units that call each other, each with storage of its own, runs as its C files do, for every state of the units: where each unit is lowered to
/// a text, and its function is built for that.
pub fn unit_programs_run_alike()
    ensures { UnitProgramsRunAlike }
{}
