//! Which written main programs are plain, as the contracts of calls that do nothing.

ghost use Rattle.plain_mains.specs.Examples.{ExamplesAreTold};
ghost use Rattle.plain_mains.specs.PlainUnits.{PlainMainsAreTold};

/// A written unit for which `is_plain_main` computes to true is what the law of main programs asks for: it is a main program with one entry and storage of its
/// own, its statements are lowered and end with END, its loops are nested and entered by their DO alone, and each of its variables is an integer, a logical or an
/// array of them, of less than 2 ^ 31 bytes, with bounds that are constant and have 32 bits.
pub fn plain_mains_are_told()
    ensures { PlainMainsAreTold }
{}

/// A program that fills an array in a loop and prints it in an IF block is plain, whatever the options; with an EQUIVALENCE, with a branch into the loop, or with
/// a bound that is no constant, it is not.
pub fn examples_are_told()
    ensures { ExamplesAreTold }
{}
