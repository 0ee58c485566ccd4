//! Main programs of numbers and what is made for them, as the contract of a call that does nothing.

ghost use Rattle.std.specs.Prelude.{◌≡◌, Some};
ghost use Rattle.main_programs.specs.lowering.Units.{lowered_unit};
ghost use Rattle.main_programs.specs.main_translation.Outlined.{body_of};
ghost use Rattle.main_programs.specs.MainRuns.{plain_facts};
ghost use Rattle.main_translation_laws.specs.PlainMains.{IsPlainMain, IsPlainText, PlainMainsRunAlike};
ghost use Rattle.main_translation_laws.specs.Example.{its_unit, its_text, its_statements};

/// A main program whose names are integers and logicals with storage of their own runs as the C file that `main_translation` makes for it, for every state of
/// the units and every number of steps, where it is lowered, and statements are made for it. What is asked of the unit is said of its
/// statements and names alone; names in C, types of temporaries, labels and calls of the library need no care of the caller.
pub fn plain_mains_run_alike()
    ensures { PlainMainsRunAlike }
{}

/// A main program with a DO loop, a block of two arms, an output of a value and a branch: all that is asked of it is so, and the statements that are said are
/// made for it.
pub fn example_is_made()
    ensures plain { IsPlainMain its_unit }
    ensures lowered { lowered_unit (plain_facts its_unit) ≡ Some its_text }
    ensures short { IsPlainText its_text }
    ensures made { body_of its_unit its_text ≡ Some its_statements }
{}
