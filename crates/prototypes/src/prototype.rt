//! The prototype of a function (C89, 3.5.4.3).
#![tactic(auto)]

use c_tree::declaration::CParam;
use c_tree::expression::Text;
use c_tree::types::ResultType;
use plain_data::Items;

/// What is declared of a function where it is not defined: what it gives its caller, its name and its parameters.
#[derive(Drop)]
pub struct Prototype {
    /// What it gives its caller.
    pub result: ResultType,
    /// Its name.
    pub name: Text,
    /// Its parameters, from the left.
    pub params: Items<CParam>,
}
