//! Main programs and the texts of their C files, as the contract of a call that does nothing.

ghost use Rattle.main_faithfulness.specs.MainFaithful.{EachPlainMainIsFaithful};

/// Bytes that spell the C file which is made for a main program of numbers with storage of its own are faithful to the file of that program: its signatures
/// and link rules, its one setting, and its runs, where it never comes to a form without meaning.
pub fn plain_mains_are_faithful()
    ensures { EachPlainMainIsFaithful }
{}
