//! How many nodes the trees of program units have, as definitions. Sections 3, 6 to 13 and 15 of the standard, ANSI X3.9-1978.
#![tactic(auto)]
