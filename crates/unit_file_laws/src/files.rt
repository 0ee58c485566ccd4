//! The names of files of several units, and the items of their functions, as contracts of calls that do nothing.

ghost use Rattle.unit_file_laws.specs.BuiltUnits.{UnitsHaveTheirItems};
ghost use Rattle.unit_file_laws.specs.KnownUnits.{UnitFilesAreKnown};
ghost use Rattle.unit_file_laws.specs.ProcedureNames.{ProcedureNamesAreKnown};

/// In each function of a file each name stands for the object for which it is taken: variables, arrays, dummy arguments, the result, temporaries,
/// bounds that it keeps, constants and control lists, and the functions that it calls, where all names are told apart, each variable is listed as what it is,
/// and the constants of the file stand before the objects of the function.
pub fn unit_files_are_known()
    ensures { UnitFilesAreKnown }
{}

/// Each name in an item for a call of a procedure, or for a return, is known where what the function goes by is, and so are the functions that it calls
/// or passes.
pub fn procedure_names_are_known()
    ensures { ProcedureNamesAreKnown }
{}

/// The function of a unit has as its code the items that are emitted for what it keeps of its dummy arrays, and behind them for the steps of its lowered text,
/// in whichever file it stands, where its statements are built for them, and their strings are those that are listed.
pub fn units_have_their_items()
    ensures { UnitsHaveTheirItems }
{}
