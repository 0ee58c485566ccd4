//! How many bytes the objects of a program have, as the contract of a call that does nothing.

ghost use Rattle.linked_sizes.specs.LinkedSizes.{EachProgramIsSized};

/// The objects of the C files of program units have at most the bytes of what is said of their functions: four for each constant of a file, those of the variables
/// and arrays, those of the strings with their zero bytes, and four for each parameter, result, temporary and bound that is kept of a dummy array (C89,
/// 3.1.2.4, 3.1.2.5 and 3.5.7).
pub fn programs_have_few_bytes()
    ensures { EachProgramIsSized }
{}
