//! What COMMON and EQUIVALENCE statements say of storage stays said where further statements follow: equations, contradictions, and blocks that
//! are joined or extended. Definitions and proofs alone, in `specs/` and `proofs/`. Sections 8.2, 8.3 and 17.1 of the standard, ANSI X3.9-1978.
#![tactic(auto)]
