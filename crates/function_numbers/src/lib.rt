//! The functions of the files of a program by their numbers: those that the files define, and behind them those of the library (C89, 3.1.2.2 and 3.7.1).
#![tactic(auto)]

mod builtins;
mod names;
mod numbers;

pub use builtins::builtin_names;
pub use names::defined_names;
pub use numbers::function_numbers;
