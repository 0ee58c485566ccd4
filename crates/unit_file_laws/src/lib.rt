//! That what the functions of files of several units go by is known in them, and that they have the items of the bounds that they keep of dummy arrays and
//! of their lowered texts. The functions here do nothing; their contracts are the laws.
#![tactic(auto)]

pub mod files;
