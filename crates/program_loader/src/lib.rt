//! Everything that a run of C files needs, made before it begins: their linked program, its objects as they start, and room for the arguments of
//! each call and for each text (C89, 3.1.2.4, 3.3.2.2 and 3.7).
#![tactic(auto)]

mod links;
mod loading;

pub use links::LoadFail;
pub use loading::{LoadedProgram, load};
