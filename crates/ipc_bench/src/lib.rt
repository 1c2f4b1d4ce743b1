//! Tests of streams, and of calls that need no file.
//!
//! They test what no contract states and no case can express:
//!
//! - devices that fail or move few bytes, and allocations that fail;
//! - memory that arrays share;
//! - public calls that nothing else makes.
#![tactic(auto)]

#[cfg(test)]
mod accessors;
#[cfg(test)]
mod allocation_failure;
#[cfg(test)]
mod appended_arrays;
#[cfg(test)]
mod chunk;
#[cfg(test)]
mod column_kinds;
#[cfg(test)]
mod device_failure;
#[cfg(test)]
mod devices;
#[cfg(test)]
mod dictionaries;
#[cfg(test)]
mod encoding;
#[cfg(test)]
mod message_write;
#[cfg(test)]
mod no_allocation;
#[cfg(test)]
mod null_slots;
#[cfg(test)]
mod projection;
#[cfg(test)]
mod record_batch;
#[cfg(test)]
mod round_trip;
#[cfg(test)]
mod scenario;
#[cfg(test)]
mod shared_reading;
#[cfg(test)]
mod sharing;
#[cfg(test)]
mod stream_read;
#[cfg(test)]
mod stream_write;
#[cfg(test)]
mod threads;
