//! Runs of whole programs, as the contract of a call that does nothing.

ghost use Rattle.bridge.specs.Bridge.{RunsAreTheSame};

/// The runs of a set of units are those of the linked program of its texts, for any number of files: where each unit is simulated by its lowered text
/// and that by its function, the names are those of the functions, and storage stands in the objects before the first step.
pub fn translations_run_alike()
    ensures { RunsAreTheSame }
{}
