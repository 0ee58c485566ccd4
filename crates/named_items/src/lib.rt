//! The flat items of a function by their names, as data: what C statements are built from, and the law that those of the items are those of the flat
//! form. C89, 3.6.
#![tactic(auto)]

pub mod agreement;
pub mod item;
pub mod layout;
pub mod part;

pub use item::{Callee, Case, Item};
pub use layout::Layout;
pub use part::{Head, Part};
