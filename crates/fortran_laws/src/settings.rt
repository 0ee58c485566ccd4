//! What is proved of where the stored names of a set of units stand, each as the contract of a call that does nothing.
#![tactic(auto)]

ghost use Rattle.f_tree.specs.Runs.{EachFileSetHasOneSetting};
ghost use Rattle.f_tree.specs.Setting.{EachSetHasOneSetting, EachStoredNameStands};
ghost use Rattle.f_tree.specs.Runs.{GoesByStep, EndingStays, ActStays};

/// Where the stored names of a set of units stand leaves no choice: two settings of a set are one, wherever no stored
/// name of a unit stands twice and what EQUIVALENCE ties is stored. The units that are read from files are all such.
pub fn settings_are_unique()
    ensures of_units { EachSetHasOneSetting }
    ensures of_files { EachFileSetHasOneSetting }
{}

/// In each setting of a set of units, each stored name of each unit has a home in one of the sequences of storage.
pub fn stored_names_stand()
    ensures stand { EachStoredNameStands }
{}

/// A run goes on by one step at a time, from a state that all its steps before have made; one that has
/// ended, or has met an act of which nothing is said, stays.
pub fn runs_go_by_steps()
    ensures steps { GoesByStep }
    ensures ending { EndingStays }
    ensures act { ActStays }
{}
