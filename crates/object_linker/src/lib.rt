//! The objects that declarations of a C text make, as they stand at the start of a run or of a call (C89, 3.1.2.5, 3.5 and 3.5.7).
#![tactic(auto)]

mod images;
mod kinds;
mod lists;
mod sizes;

pub use images::{
    image, number_image, numbers_image, numbers_of_size, string_image, text_image, zero_bytes,
};
pub use kinds::{parameter_access, parameter_kind};
pub use lists::list_image;
pub use sizes::bytes_in;
