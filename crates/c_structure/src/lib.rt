//! C statements for a list of flat items: definitions alone.
#![tactic(auto)]
