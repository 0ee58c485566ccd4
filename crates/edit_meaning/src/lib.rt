//! What formatted and list-directed text is, both ways, as definitions. Section 13 of the standard, ANSI X3.9-1978.
#![tactic(auto)]
