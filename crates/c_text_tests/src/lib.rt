//! Tests alone, of what reads C texts.
#![tactic(auto)]

#[cfg(test)]
mod tokens;
