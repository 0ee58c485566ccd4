//! Functions of a C text, linked: the objects that each adds to its program, the names in scope, and its statements by them (C89, 3.1.2,
//! 3.5, 3.6 and 3.7.1).
#![tactic(auto)]

mod frames;
mod functions;
mod layouts;
mod locals;
mod numbers;
mod scopes;

pub use functions::link_function;
