//! Calls that disagree with what they call, as lines of text, and the shapes that the lines of prototype files have. CSTR 149; ANSI X3.9-1978, sections
//! 15.5 to 15.9.
#![tactic(auto)]

mod findings;
pub mod laws;
mod names;
mod shapes;

pub use findings::finding_lines;
pub use shapes::with_lines;
