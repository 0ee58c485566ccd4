//! An instance of what the law asks for.

ghost use Rattle.emitted_texts.specs.Emitted.{IsEmittedMain};
ghost use Rattle.emitted_texts.specs.Example.{its_surroundings, its_text, its_costs, its_emission};

/// What is asked of the function of a main program is met by one that puts a number into a variable and prints it.
pub fn example_is_emitted()
    ensures { IsEmittedMain its_surroundings 0 its_text its_costs its_emission }
{}
