//! Tests alone, of prototype files.
#![tactic(auto)]

#[cfg(test)]
mod prototype_files;
