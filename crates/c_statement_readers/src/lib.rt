//! Readers of the statements of a C text (C89, 3.6): definitions alone, and they stand in `specs/`. A reader gives the statement that stands
//! first in tokens, or the token at which nothing goes on; the labels of a function are among what it goes by.
#![tactic(auto)]
