//! Runs of whole programs of several units, as the contract of a call that does nothing.

ghost use Rattle.call_bridge.specs.CallBridge.{CallsRunAlike};

/// The runs of a set of units that call each other are those of the linked program of its texts, for any number of files: where each unit is simulated by
/// its lowered text and that by its function, with arguments and answers, the names are those of the functions, and storage stands in the objects before
/// the first step.
pub fn calls_run_alike()
    ensures { CallsRunAlike }
{}
