//! Files of plain units, as the contract of a call that does nothing.

ghost use Rattle.plain_unit_files.specs.PlainUnitFiles.{EachPlainUnitSetIsFaithful};

use fortran_totality::totality::well_formed_runs_are_meant;

/// FORTRAN files of plain main programs, subroutines and functions that break no row, and the texts that are printed of the C files which are made for them:
/// each text spells its C file, which has the functions of the units of the FORTRAN file with their parameters, and where the set is closed they link, and over
/// each setting, from every state of the external units and for every number of statement steps, the run of the units never comes to a form without meaning,
/// and where it is defined the run of the texts is the same after some number of its own steps, no fewer and no more than the step factor times as many.
///
/// Which units these are is told by tests on the tree. Where no text is lowered or no functions are made, nothing is said.
pub fn plain_unit_sets_are_faithful()
    ensures { EachPlainUnitSetIsFaithful }
{
    well_formed_runs_are_meant();
}
