//! Tests alone, of equations of places.
#![tactic(auto)]

#[cfg(test)]
mod equations;
