//! That the items of a unit's lowered steps, and of the bounds that it keeps of dummy arrays, by names are those of its flat items, for units that call
//! each other. The functions here do nothing; their contracts are the laws.
#![tactic(auto)]

pub mod units;
