//! Everything that a translation or a run meets outside itself: the words of the command line, the
//! shelf that holds the files, the devices of the external units, and the table of the units.
#![tactic(auto)]

pub mod devices;
pub mod host_devices;
pub mod host_file;
pub mod host_shelf;
pub mod memory_device;
pub mod memory_shelf;
mod plan;
pub mod shelves;
pub mod texts;
pub mod unit_table;
