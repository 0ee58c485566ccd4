//! Tests alone, of the values of linked expressions.
#![tactic(auto)]

#[cfg(test)]
mod expressions;
#[cfg(test)]
mod sample;
