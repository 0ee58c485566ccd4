//! Prototypes: what the lines of a prototype file say of the functions of a C text (C89, 3.5.4.3). The definitions stand in `specs/`; here is the type that
//! they and the code share.
#![tactic(auto)]

mod prototype;

pub use prototype::Prototype;
