//! The texts of a translation, run by the command that runs C files, where the FORTRAN run has ended. The function here does nothing; its contract is the
//! law.
#![tactic(auto)]

ghost use Rattle.translated_runs.specs.TranslatedRuns.{RunsOfTranslationsEndAlike};

/// Where a closed set of FORTRAN files was translated and its run ends, the command that runs the texts ends the same way, if it may go far enough: with the
/// same external units, the exit status of that ending, and the line of that ending on Fault. Or there was no memory, the objects of the texts have more
/// bytes than a program may have, the device of a unit failed, or more was to be counted than 64 bits tell in a call on a unit that stands behind 2^53 records
/// or more.
pub fn runs_of_translations_end_alike()
    ensures { RunsOfTranslationsEndAlike }
{}
