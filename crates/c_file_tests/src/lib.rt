//! Tests alone, of the reading of C files.
#![tactic(auto)]

#[cfg(test)]
mod files;
