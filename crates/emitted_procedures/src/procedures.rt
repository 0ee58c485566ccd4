//! The lowered text of a unit that may run and its C function, as the contract of a call that does nothing.

ghost use Rattle.emitted_procedures.specs.MainUnits.{MainsAreUnits};
ghost use Rattle.emitted_procedures.specs.SimulatedUnits.{UnitsAreSimulated};

/// The C function of a main program, a subroutine or a function of numbers simulates its lowered text, where each step of the text has its item: it
/// begins where the text does, with its dummies reached through its parameters; while the text goes on, it goes on over objects in which the store
/// stands; where the text calls, it calls with arguments that are alike, and goes on with each answer that is; and its answer is what was wanted.
pub fn units_are_simulated()
    ensures { UnitsAreSimulated }
{}

/// The function of a main program that calls no procedure is that of a unit that may run, where its frame stands apart from those of other functions, the
/// output in progress is said before each step, and what its temporaries are given is of a type that is said.
pub fn mains_are_units()
    ensures { MainsAreUnits }
{}
