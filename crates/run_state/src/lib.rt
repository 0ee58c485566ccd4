//! What the runs of both machines share, as definitions: the state of the external units, what each input and output
//! statement does to it, and how a run ends.
#![tactic(auto)]

pub mod refusals;

pub use refusals::UnitRefusal;
