//! What each statement of a program unit breaks of the rows of Declarations, judged from the trees: definitions alone, in `specs/`.
#![tactic(auto)]
