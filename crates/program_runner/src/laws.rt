//! Laws of the steps of a run. A function here does nothing, and its contract is the law.

ghost use Rattle.program_runner.specs.CallsMade.{EachNextCallIsMade};

/// A step of which it is said that it makes a call of the library is what the function does with the reply of this very call, with these
/// values, in the world that the step finds; where the call breaks, the step breaks so.
pub fn next_calls_are_made()
    ensures { EachNextCallIsMade }
{}
