//! Tests of files.
//!
//! They test what no contract states and no case can express:
//!
//! - devices that fail or move few bytes, and allocations that fail;
//! - files that begin inside a device, and files that are too long;
//! - sessions that append to a file.
#![tactic(auto)]

#[cfg(test)]
mod allocation_failure;
#[cfg(test)]
mod append;
#[cfg(test)]
mod append_in_memory;
#[cfg(test)]
mod append_refused;
#[cfg(test)]
mod append_sessions;
#[cfg(test)]
mod batch_read;
#[cfg(test)]
mod column_kinds;
#[cfg(test)]
mod device_failure;
#[cfg(test)]
mod example_file;
#[cfg(test)]
mod file_metadata;
#[cfg(test)]
mod file_read;
#[cfg(test)]
mod file_write;
#[cfg(test)]
mod no_allocation;
#[cfg(test)]
mod projection;
#[cfg(test)]
mod round_trip;
#[cfg(test)]
mod scenario;
#[cfg(test)]
mod scratches;
#[cfg(test)]
mod sessions;
