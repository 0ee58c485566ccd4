//! An instance of what the law asks for.

ghost use Rattle.procedure_emission.specs.EmittedUnits.{IsEmittedUnit};
ghost use Rattle.emitted_rows.specs.Example.{its_surroundings, its_costs, main_text, main_emission, function_text, function_emission, other_text, other_emission};
ghost use Rattle.emitted_rows.specs.KeptExample.{ArrayIsEmitted};

/// What is asked of the function of a unit is met, in one program, by that of a main program that calls a function with a number and a function, by that
/// of the function, which calls the one that it is passed, and by that of the one that is passed.
pub fn examples_are_emitted()
    ensures main { IsEmittedUnit its_surroundings 0 main_text its_costs main_emission }
    ensures function { IsEmittedUnit its_surroundings 1 function_text its_costs function_emission }
    ensures other { IsEmittedUnit its_surroundings 2 other_text its_costs other_emission }
{}

/// What is asked of the function of a unit that keeps the bounds of a dummy array, and of what its steps may cost, is met by that of a subroutine whose
/// array has both its bounds from other dummies.
pub fn array_is_emitted()
    ensures { ArrayIsEmitted }
{}
