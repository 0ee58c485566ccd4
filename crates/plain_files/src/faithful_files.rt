//! Plain main programs and their printed files, as the contract of a call that does nothing.

ghost use Rattle.plain_files.specs.PlainFiles.{EachPlainFileIsFaithful};

use fortran_totality::totality::well_formed_runs_are_meant;

/// A FORTRAN file of one plain main program that breaks no row, and the text that is printed of the C file which is made for it: the text spells that file, has
/// the functions of the program and links, and over each setting, from every state of the units and for every number of statement steps, the run of the program
/// never comes to a form without meaning, and where it is defined the run of the text is the same after some number of its own steps, no fewer and no more than
/// the step factor times as many.
///
/// Which programs these are is told by tests on the tree. Where no text is lowered or no statements are made, nothing is said.
pub fn plain_files_are_faithful()
    ensures { EachPlainFileIsFaithful }
{
    well_formed_runs_are_meant();
}
