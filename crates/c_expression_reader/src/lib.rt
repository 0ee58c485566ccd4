//! The expressions, arguments and calls that tokens of a C text spell (C89, 3.3). Each function reads what stands first in tokens, in one pass.
#![tactic(auto)]

mod calls;
mod expressions;
mod failure;
mod leads;
mod nodes;
mod operands;
mod operators;
mod wanted;

pub use calls::{read_arguments, read_call};
pub use expressions::read_expression;
pub use failure::{Failure, MOST_NESTS};
pub use wanted::{a_name, a_sign, a_word, is_closed};
