//! Readers of tokens, whatever the language: what a reader gives, when it is exact for a form of a grammar (`specs/`), and how readers that are
//! put together are: one behind another, a token before what is read, and a good reader that reads all that is spelled (`proofs/`). A grammar's
//! own laws stand on these.
#![tactic(auto)]
