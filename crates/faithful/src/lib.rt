//! When C texts are faithful to FORTRAN files, as definitions: the storage image, states that are the same, and runs that are.
#![tactic(auto)]
