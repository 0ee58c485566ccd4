//! The functions of the library on texts and numbers, over the objects of a run: assignment, comparison, search and concatenation of
//! texts, powers, SIGN, DIM, the bit functions, STOP and the report of a place outside its bounds (ANSI X3.9-1978, 6.2.2.2, 6.3.5, 6.6,
//! 10.4, 11.12 and 15.10; MIL-STD-1753; CSTR 149, appendix on the run time library).
//!
//! A call takes the values of its arguments, and answers a fault in their order. It takes no memory: what assigns a text puts it
//! together in a buffer that is handed in.
#![tactic(auto)]

mod arguments;
mod comparisons;
mod copies;
mod endings;
mod numbers;

pub use comparisons::{i_indx, l_ge, l_gt, l_le, l_lt, s_cmp};
pub use copies::{s_cat, s_copy};
pub use endings::{RangeReport, ending_text, report_of, s_rnge, s_stop};
pub use numbers::{b_clr, b_set, b_test, i_and, i_dim, i_eor, i_not, i_or, i_shft, i_sign, pow_ii};
