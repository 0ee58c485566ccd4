//! Runs of C texts that are faithful to FORTRAN files, where the FORTRAN run has ended. The function here does nothing; its contract is the law.
#![tactic(auto)]

ghost use Rattle.ended_runs.specs.EndedRuns.{TranslatedRunsEndAlike};

/// Where texts are faithful to a closed set of FORTRAN files and the FORTRAN run has ended after some steps, the run of the texts has ended the same way, with
/// the same external units, after the step factor times as many steps and after any more.
pub fn translated_runs_end_alike()
    ensures { TranslatedRunsEndAlike }
{}
