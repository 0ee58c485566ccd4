//! The lowered text of a main program and its C function, as the contract of a call that does nothing.

ghost use Rattle.emitted_texts.specs.Emitted.{MainsAreSimulated};

/// The C function of a main program simulates its lowered text, where each step of the text has its item: while the text goes on, the function goes on
/// at the item of the next step, over objects in which the store stands; where it ends, the function answers.
pub fn mains_are_simulated()
    ensures { MainsAreSimulated }
{}
