//! Laws of the parts of a file (C89, 3.7). The functions here do nothing; their contracts are the laws.
#![tactic(auto)]

ghost use Rattle.c_file_laws.specs.FileLaws.{GoodObjects, GoodConstants, GoodFunctions, ExactObjects, ExactConstants, ExactFunctions};

/// The readers of external objects, of constants and of functions take what is spelled, whatever stands behind it, refuse where what stands before
/// the offending token can be completed, and look at no token past the one at which they stop.
pub fn good_c_parts()
    ensures objects { GoodObjects }
    ensures constants { GoodConstants }
    ensures functions { GoodFunctions }
{}

/// The readers of external objects and of constants give exactly what is spelled, and refuse exactly at the first token such that the tokens up to
/// it begin none.
#[tactic(auto, using(crate::proofs::ObjectReads::exact_objects, crate::proofs::ObjectReads::exact_constants))]
pub fn exact_c_objects()
    ensures objects { ExactObjects }
    ensures constants { ExactConstants }
{}

/// The reader of functions does so too, where the names in scope are names.
#[tactic(auto, using(crate::proofs::FileLaws::exact_c_functions))]
pub fn exact_c_functions()
    ensures { ExactFunctions }
{}
