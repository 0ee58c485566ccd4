//! The judge of a source: from the bytes of files and of those that they include to the set of their trees, where the calls of that may be checked,
//! or to the first refusal. Every form of the language is judged, translated or not. ANSI X3.9-1978, sections 2 to 18; MIL-STD-1753: INCLUDE.
#![tactic(auto)]

mod declared;
mod judged;

pub use declared::read_declared;
pub use judged::judge_source;
