//! What the definitions of places in storage say: which names share storage, when equations contradict each other, and where a name stands.
//! Definitions and proofs alone, in `specs/` and `proofs/`. Sections 8.2, 8.3 and 17.1 of the standard, ANSI X3.9-1978.
#![tactic(auto)]
