//! Tests alone, of calls that disagree with what they call: units from their trees, and what is found of their calls.
#![tactic(auto)]

#[cfg(test)]
mod disagreeing;
#[cfg(test)]
mod trees;
