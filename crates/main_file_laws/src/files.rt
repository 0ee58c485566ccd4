//! The names of a main program's file, as the contract of a call that does nothing.

ghost use Rattle.main_file_laws.specs.BuiltMain.{MainsHaveTheirItems};
ghost use Rattle.main_file_laws.specs.KnownFile.{MainFilesAreKnown};

/// In the function of a main program each name stands for the object for which it is taken: variables, arrays, temporaries, constants and control lists,
/// and the functions of the library that it calls, where all names are told apart and each variable is listed as what it is.
pub fn main_files_are_known()
    ensures { MainFilesAreKnown }
{}

/// The function of a main program has as its code the items that are emitted for the steps of its lowered text, where its statements are built for them.
pub fn mains_have_their_items()
    ensures { MainsHaveTheirItems }
{}
