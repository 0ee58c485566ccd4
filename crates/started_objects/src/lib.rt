//! The objects of a run as they stand before its first step, made from those of a linked program (C89, 3.1.2.4 and 3.5.7).
#![tactic(auto)]

mod kinds;
mod starts;

pub use starts::objects_at_start;
