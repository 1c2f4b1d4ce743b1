//! Tests of chunks, and of small calls of readers and writers.
//!
//! Each public call is made with known data, byte for byte. Expected bytes are those of the Arrow
//! columnar format.
#![tactic(auto)]

#[cfg(test)]
mod chunks;
#[cfg(test)]
mod float_streams;
#[cfg(test)]
mod flushes;
#[cfg(test)]
mod readers;
#[cfg(test)]
mod stream_chunks;
