//! What the functions of the library do with texts: assignment, comparison, search and concatenation, with blanks behind the shorter
//! text (ANSI X3.9-1978, 6.2.2.2, 6.3.5, 10.4 and 15.10). Each takes time in the length of its texts and no memory.
#![tactic(auto)]

mod comparison;
mod copying;
mod search;

pub use comparison::{
    compare_texts, lexically_above, lexically_below, lexically_not_above, lexically_not_below,
};
pub use copying::{append_piece, copy_text, pad_gathered};
pub use search::index_of;
