//! The pieces of the text of a statement. Sections 2 and 3 of the standard, ANSI X3.9-1978. The blanks of a text are left out once, and then
//! each place is cut once: linear in the text.
#![tactic(auto)]

mod classes;
mod cursor;
mod cuts;
mod kinds;
mod places;
mod reader;
mod rows;
mod squeeze;
mod steps;
mod token;
mod words;

pub use kinds::classify;
pub use places::{Place, token_places};
pub use reader::tokens;
pub use squeeze::squeezed;
pub use token::{LexFail, Span, Token, TokenList};
