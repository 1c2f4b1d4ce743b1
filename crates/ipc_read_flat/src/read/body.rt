//! The entries of a batch, and the offset of its body on a device.
ghost use Rattle.std.specs.Prelude.{◌<◌, ◌≤◌, ◌^◌, length};
ghost use Rattle.ipc_read_flat.specs.Limits.{AreSmall};

use crate::read::Dictionaries;
use ipc_table_views::{Buffers, Nodes};
use lower::types::Endianness;
use std::snapshot::Snapshot;

/// The entries of a batch, and the offset of its body on a device.
#[derive(Drop)]
pub struct Body<'a, R> {
    /// The lengths and null counts of the columns, in pre-order.
    pub nodes: Nodes<'a>,
    /// The buffers of the columns, in pre-order. Their offsets count from the start of the body.
    pub buffers: Buffers<'a>,
    /// The offset of the body on the device, in bytes.
    pub base: u64,
    /// The byte order of numbers.
    pub order: Endianness,
    /// How many buffers precede a union's own: 1 before version 5, else 0.
    pub extra: usize,
    /// The dictionaries that were read before.
    pub dictionaries: &'a Dictionaries,
    /// The device when reading began, for proofs. It has no size.
    pub device: Snapshot<R>,
    pub ghost nodes_fit: { length nodes < 2 ^ 64 },
    pub ghost buffers_fit: { length buffers < 2 ^ 64 },
    pub ghost lengths_fit: { AreSmall nodes },
    pub ghost extra_small: { extra ≤ 1 },
}

/// The position of a column among the entries.
#[derive(Clone, Copy, Debug, PartialEq, Eq)]
pub struct Place {
    /// The index of its first node.
    pub node: usize,
    /// The index of its first buffer.
    pub buffer: usize,
}
