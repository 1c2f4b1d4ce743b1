//! The entries of a batch, nodes and buffers, and the bytes of the buffers.
//!
//! Arrow columnar format, "RecordBatch message" and "Physical Memory Layout".
ghost use Rattle.std.specs.Prelude.{◌≡◌, ◌+◌, ◌*◌, ◌<◌, ◌^◌, nat_le, ◌&&◌};
ghost use Rattle.std.specs.Str;
ghost use Rattle.ipc_model.specs.Columns;
ghost use Rattle.ipc_model.specs.Entries;
ghost use Rattle.ipc_model.specs.Tests;
ghost use Rattle.ipc_reference.specs.PlainEntries.{entries_view};

use crate::numbers::{bit, range, unsigned_4, value_bytes};
use ipc_table_views::FieldNode;
use lower_types::Endianness;
use simdutf8::is_utf8;

/// A buffer entry, and those of its bytes that are present.
#[derive(Clone, Copy, Debug)]
pub struct PlainPart<'a> {
    /// The offset in the body, in bytes.
    pub offset: i64,
    /// The stated length in bytes.
    pub length: i64,
    /// The bytes that are present.
    pub bytes: &'a [u8],
}

/// The entries from which the columns of a batch are read.
#[derive(Clone, Copy, Debug)]
pub struct PlainEntries<'a> {
    /// The lengths and null counts of the columns, in pre-order.
    pub nodes: &'a [FieldNode],
    /// The buffers of the columns, in pre-order.
    pub parts: &'a [PlainPart<'a>],
    /// The byte order of numbers.
    pub order: Endianness,
    /// How many buffers precede a union's own.
    pub extra: usize,
}

// A signed number as a size; a negative one is 0.
pub(crate) fn size(number: i64) -> usize
    ensures size { result ≡ Entries.size number }
    ensures small { result < 2 ^ 63 }
{
    number.max(0) as usize
}

// Whether some bytes are UTF-8.

fn is_text(bytes: &[u8]) -> bool
    ensures { result ≡ Str.is_utf8 bytes.now }
{
    is_utf8(bytes)
}

#[tactic(auto, using(crate::proofs::PartLists::parts))]
impl<'a> PlainEntries<'a> {
    /// The node at an index; one without slots past the end.
    pub fn node(&self, a: usize) -> FieldNode
        ensures { result ≡ Entries.node (entries_view self.now) a }
    {
        if a < self.nodes.len() {
            self.nodes[a]
        } else {
            FieldNode {
                length: 0,
                null_count: 0,
            }
        }
    }

    /// The buffer at an index; an empty one past the end.
    pub fn part(&self, b: usize) -> PlainPart<'a>
        ensures offset { result.offset ≡ (Entries.buffer (entries_view self.now) b).offset }
        ensures length { result.length ≡ (Entries.buffer (entries_view self.now) b).length }
        ensures bytes { result.bytes.now ≡ Entries.bytes (entries_view self.now) b }
    {
        if b < self.parts.len() {
            self.parts[b]
        } else {
            PlainPart {
                offset: 0,
                length: 0,
                bytes: &[],
            }
        }
    }

    /// Whether buffer b states `count` bytes, and they are present.
    pub fn has_bytes(&self, b: usize, count: u128) -> bool
        ensures { result ≡ Tests.has_bytes (entries_view self.now) b count }
    {
        let part = self.part(b);
        part.offset >= 0
            && (count <= size(part.length) as u128 && count <= part.bytes.len() as u128)
    }

    /// How many rows are read of the column at node a.
    pub fn rows(&self, a: usize, limit: Option<usize>) -> usize
        ensures rows { result ≡ Entries.rows (entries_view self.now) a limit }
        ensures small { result < 2 ^ 63 }
    {
        let all = size(self.node(a).length);
        match limit {
            Some(limit) => limit.min(all),
            None => all,
        }
    }

    /// Whether node a has a length, and a validity that is needed is present.
    ///
    /// It is the validity of the first `rows` slots.
    pub fn begins(&self, a: usize, b: usize, rows: usize) -> bool
        ensures { result ≡ Tests.begins (entries_view self.now) a b rows }
    {
        let node = self.node(a);
        node.length >= 0 && (node.null_count <= 0 || self.has_bytes(b, rows.div_ceil(8) as u128))
    }

    /// Whether slot i isn't null.
    pub fn is_valid(&self, a: usize, b: usize, i: usize) -> bool
        ensures { result ≡ Columns.is_valid (entries_view self.now) a b i }
    {
        if self.node(a).null_count <= 0 {
            true
        } else {
            bit(self.part(b).bytes, i)
        }
    }

    /// Offset i in buffer b.
    pub fn offset(&self, b: usize, i: usize) -> usize
        ensures offset { result ≡ Entries.offset (entries_view self.now) b 4 i }
        ensures small { result < 2 ^ 32 }
    {
        unsigned_4(self.order, value_bytes(self.part(b).bytes, 4, i)) as usize
    }

    // Whether an empty buffer counts as the single offset 0.
    fn is_omitted(&self, b: usize, rows: usize) -> bool
        ensures { result ≡ Columns.is_omitted (entries_view self.now) b rows }
    {
        rows == 0 && self.part(b).length <= 0
    }

    /// The last of the offsets of `rows` slots.
    pub fn last_offset(&self, b: usize, rows: usize) -> usize
        ensures offset { result ≡ Columns.last_offset (entries_view self.now) b 4 rows }
        ensures small { result < 2 ^ 32 }
    {
        if self.is_omitted(b, rows) {
            0
        } else {
            self.offset(b, rows)
        }
    }

    // Whether the first offsets never fall.
    fn rises(&self, b: usize, rows: usize) -> bool
        requires { rows < 2 ^ 63 }
        ensures { result ≡ Tests.all_below rows (λ i. nat_le (Entries.offset (entries_view self.now) b 4 i) (Entries.offset (entries_view self.now) b 4 (i + 1))) }
    {
        for i in 0..rows {
            if self.offset(b, i) > self.offset(b, i + 1) {
                return false;
            }
        }
        true
    }

    /// Whether the offsets of `rows` slots are present, never fall, and aren't negative.
    pub fn has_offsets(&self, b: usize, rows: usize) -> bool
        requires { rows < 2 ^ 63 }
        ensures { result ≡ Tests.has_offsets (entries_view self.now) b 4 rows }
    {
        let count = if self.is_omitted(b, rows) {
            0
        } else {
            4 * (rows as u128 + 1)
        };
        self.has_bytes(b, count) && (self.rises(b, rows) && self.last_offset(b, rows) < 1 << 31)
    }

    /// The bytes of slot i. The offsets are in buffer b, the bytes in the next.
    pub fn bytes(&self, b: usize, i: usize) -> &'a [u8]
        requires slot { i < 2 ^ 63 }
        requires buffer { b < 2 ^ 63 }
        ensures { result.now ≡ Columns.bytes_at (entries_view self.now) b 4 i }
    {
        range(
            self.part(b + 1).bytes,
            self.offset(b, i),
            self.offset(b, i + 1),
        )
    }

    // Whether each of the first slots is a text.
    fn are_texts(&self, b: usize, rows: usize) -> bool
        requires rows { rows < 2 ^ 63 }
        requires buffer { b < 2 ^ 63 }
        ensures { result ≡ Tests.are_texts (entries_view self.now) b 4 rows }
    {
        for i in 0..rows {
            if !is_text(self.bytes(b, i)) {
                return false;
            }
        }
        true
    }

    /// Whether `rows` texts are present.
    pub fn has_texts(&self, b: usize, rows: usize) -> bool
        requires rows { rows < 2 ^ 63 }
        requires buffer { b < 2 ^ 63 }
        ensures { result ≡ Tests.has_values (entries_view self.now) b 4 rows && Tests.are_texts (entries_view self.now) b 4 rows }
    {
        (self.has_offsets(b, rows) && self.has_bytes(b + 1, self.last_offset(b, rows) as u128))
            && self.are_texts(b, rows)
    }
}
