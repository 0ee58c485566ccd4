//! Which trees the statements of a file spell. Sections 2 to 16 of the standard, ANSI X3.9-1978. The definitions stand in `specs/`.
#![tactic(auto)]
