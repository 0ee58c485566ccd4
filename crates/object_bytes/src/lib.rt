//! How many bytes the sequences of program units have, how many nodes their trees, and how long the texts of their STOP statements are, as definitions. Sections
//! 3.5, 11.12 and 17.1 of the standard, ANSI X3.9-1978.
#![tactic(auto)]
