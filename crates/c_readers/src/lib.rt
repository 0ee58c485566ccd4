//! Readers of the tokens of a C text (C89, 3): definitions alone, and they stand in `specs/`. A reader gives the tree that stands first in
//! tokens, or the token at which nothing goes on.
#![tactic(auto)]
