//! The lists that calls of the library on input and output take, read out of the objects of a run: the control list of a transfer on a
//! unit or an internal file, and the lists of OPEN, CLOSE, BACKSPACE, REWIND and ENDFILE (ANSI X3.9-1978, 12.8 and 12.10; CSTR 149,
//! appendix on the run time library). A list is read in the order of the definitions, and the first fault is answered.
#![tactic(auto)]

mod controls;
mod fields;
mod files;
mod values;

pub use controls::{
    InternalControl, UnitControl, internal_control, internal_format, unit_control, unit_format,
};
pub use files::{CloseList, OpenList, PositionList, close_list, open_list, position_list};
pub use values::{as_number, count_from, length_from, number_through};
