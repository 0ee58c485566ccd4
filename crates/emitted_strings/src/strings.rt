//! The strings of the items of steps, as the contract of a call that does nothing.

ghost use Rattle.emitted_strings.specs.EmittedStrings.{EachItemHasTheStringOfItsStep};

/// The item that is emitted for a step has no string but the text of a STOP statement, which has a zero byte behind it (11.12; C89, 3.1.4).
pub fn items_have_the_strings_of_their_steps()
    ensures { EachItemHasTheStringOfItsStep }
{}
