//! What is proved of sources: each is read in one way, is refused first in one way, and is meant where it is accepted.
#![tactic(auto)]

pub mod laws;
