//! From pieces to the statements that declare names and begin units. Sections 8 and 14 to 16 of the standard, ANSI X3.9-1978.
#![tactic(auto)]

mod declaration_blocks;
mod declaration_forms;
mod declaration_groups;
mod declaration_headers;
mod declaration_lists;
mod declaration_types;
mod declarations;

pub use declaration_blocks::common_statement;
pub use declaration_groups::{equivalence_statement, implicit_statement};
pub use declaration_headers::{
    block_data_statement, function_statement, program_statement, subroutine_statement,
    type_statement,
};
pub use declaration_types::dimension_statement;
pub use declarations::{
    external_statement, intrinsic_statement, parameter_statement, save_statement,
};
