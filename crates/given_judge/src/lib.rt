//! What two statements of a program unit give to one name and excludes each other (F22), each name looked up in a table. Sections 8.1 to 8.9,
//! 9.1, 15.4, 15.7, 15.9.2 and 18.2 of the standard, ANSI X3.9-1978.
#![tactic(auto)]

mod block_rows;
mod conditions;
mod gifts;
mod given_rows;
mod givens;
pub mod judge;
mod kept;
mod owners;
mod statements;
mod twice;

pub use judge::given_fault;
