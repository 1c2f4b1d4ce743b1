//! Tests of arrays, of their builders, and of the calls on schemas.
//!
//! Each public call is made with known data, byte for byte. Expected bytes are those of the Arrow
//! columnar format, floats those of IEEE 754, and texts those of Arrow C++.
#![tactic(auto)]

#[cfg(test)]
mod again;
#[cfg(test)]
mod bitmaps;
#[cfg(test)]
mod booleans;
#[cfg(test)]
mod columns;
#[cfg(test)]
mod fixed_sizes;
#[cfg(test)]
mod floats;
#[cfg(test)]
mod numbers;
#[cfg(test)]
mod offsets;
#[cfg(test)]
mod replaced;
#[cfg(test)]
mod slots;
#[cfg(test)]
mod spans;
#[cfg(test)]
mod type_texts;
#[cfg(test)]
mod types_as_bits;
