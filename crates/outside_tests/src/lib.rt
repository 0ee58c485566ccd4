//! Tests alone, of what no clause of `f2c_outside` and `host_lines` says: what real files and streams hold and give, that a read or a write that
//! fails is told, how often a device is dropped, and that a real file answers as the device in memory does.
#![tactic(auto)]

#[cfg(test)]
mod dropped_devices;
#[cfg(test)]
mod generated_calls;
#[cfg(test)]
mod lines;
#[cfg(test)]
mod real_devices;
#[cfg(test)]
mod real_shelf;
#[cfg(test)]
mod troubled_host;
#[cfg(test)]
mod troubled_shelf;
#[cfg(test)]
mod troubled_streams;
