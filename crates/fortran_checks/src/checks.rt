//! What is proved of well-typed expressions and of well-formed units, and which sets are well formed, each as the contract of a call that does nothing.
#![tactic(auto)]

ghost use Rattle.f_tree.specs.Checks.{EachCheckedSetIsWellFormed, EachWellFormedSetIsFound};

/// Whether a set is well formed is decided by computing: a set of which that is found is well formed, and of each set that
/// is well formed it is found.
pub fn checked_sets_are_well_formed()
    ensures checked { EachCheckedSetIsWellFormed }
    ensures found { EachWellFormedSetIsFound }
{}
