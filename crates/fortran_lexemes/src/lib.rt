//! What the text of a statement is made of: the kind of the statement, and the pieces that its text is cut into. Sections 2 and 3 of the
//! standard, ANSI X3.9-1978. The definitions stand in `specs/`; here are the types that they and the code share.
#![tactic(auto)]

mod kinds;
mod modes;
mod signs;

pub use kinds::StmtKind;
pub use modes::{Expected, Mode};
pub use signs::Sign;
