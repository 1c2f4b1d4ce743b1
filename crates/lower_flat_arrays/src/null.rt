//! Arrays of nulls.
ghost use Rattle.std.specs.Prelude.{◌≡◌, ◌+◌, ◌<◌, ◌≤◌, MatchResult, IsTrue, ◌↔◌, None, false, true, SomeIff};
ghost use Rattle.lower.specs.TypeViews.{type_view};
ghost use Rattle.lower_flat_arrays.specs.Nulls.{null_seen, IsNull, BreaksNull, cut_null};

use crate::ranges::is_range;
use lower::bitmap::Bitmap;
use lower::datatypes::{DataType, PhysicalType};
use lower::error::{Error, Rule};
use std::alloc::AllocError;
use std::fmt;
use std::marker::Model;

/// An array of nulls, which has no buffers (Arrow columnar format, "Null Layout").
#[derive(Drop)]
pub struct NullArray {
    data_type: DataType,
    len: usize,
}

impl Model for NullArray {
    ghost use Rattle.lower_flat_arrays.specs.Nulls.{NullSeen, coded_null, IsNull};
    ghost use Rattle.lower.specs.TypeViews.{type_view};

    ghost Value = { NullSeen };

    ghost coded = { coded_null };

    ghost view = { λ a. record { type = type_view a.data_type; len = a.len } };

    ghost invariant = { λ a. IsNull (record { type = type_view a.data_type; len = a.len }) };
}

impl NullArray {
    /// Returns an array of `len` nulls.
    ///
    /// The error is `Error::OutOfSpec(Rule::PhysicalType)`, exactly if the layout of `data_type`
    /// isn't that of nulls.
    pub fn try_new(data_type: DataType, len: usize) -> Result<Self, Error>
        ensures { let seen = null_seen (type_view data_type) len in
            MatchResult result (λ a. (a ≡ seen) × IsNull seen) (BreaksNull seen) }
    {
        if data_type.to_physical_type() != PhysicalType::Null {
            return Err(Error::OutOfSpec(Rule::PhysicalType));
        }
        Ok(NullArray { data_type, len })
    }

    /// Returns the data type.
    pub fn data_type(&self) -> &DataType
        ensures tree { type_view result.now ≡ self.now.type }
        ensures valid { IsNull self.now }
    {
        &self.data_type
    }

    /// Returns `None`: no bitmap says which slots are null, since all are.
    pub fn validity(&self) -> Option<&Bitmap>
        ensures bits { result ≡ None }
        ensures valid { IsNull self.now }
    {
        let _ = &self.len;
        None
    }

    /// Returns the number of slots.
    pub fn len(&self) -> usize
        ensures len { result ≡ self.now.len }
        ensures valid { IsNull self.now }
    {
        self.len
    }

    /// Returns whether there is no slot.
    pub fn is_empty(&self) -> bool
        ensures { IsTrue result ↔ (self.now.len ≡ 0) }
    {
        self.len == 0
    }

    /// Returns the number of null slots, which is that of all slots.
    pub fn null_count(&self) -> usize
        ensures { result ≡ self.now.len }
    {
        self.len
    }

    /// Returns `false`: no slot is valid.
    pub fn is_valid(&self, index: usize) -> bool
        requires { index < self.now.len }
        ensures { result ≡ false }
    {
        prove!(index < self.len);
        false
    }

    /// Returns the `len` slots from `offset`. It allocates nothing.
    pub fn sliced(self, offset: usize, len: usize) -> Self
        requires { offset + len ≤ self.len }
        ensures { result ≡ cut_null len self }
    {
        let NullArray { data_type, .. } = self;
        NullArray { data_type, len }
    }

    /// Returns the `len` slots from `offset`, as [`NullArray::sliced`] does.
    ///
    /// It is `None` if the array hasn't all of them; the array is dropped then.
    pub fn try_sliced(self, offset: usize, len: usize) -> Option<Self>
        ensures { SomeIff result
            (offset + len ≤ self.len)
            (cut_null len self) }
    {
        if !is_range(offset, len, self.len()) {
            return None;
        }
        Some(self.sliced(offset, len))
    }

    /// Returns `true`: each slot is null.
    pub fn is_null(&self, index: usize) -> bool
        requires { index < self.now.len }
        ensures { result ≡ true }
    {
        !self.is_valid(index)
    }

    /// Returns 0: the array has no buffers.
    pub fn retained_bytes(&self) -> usize
        ensures { result ≡ 0 }
    {
        let _ = &self.len;
        0
    }
}

impl Clone for NullArray {
    ghost is_clone = { λ a b. b ≡ a };

    /// Returns an array of the same slots. It fails only if an allocation fails.
    fn clone(&self) -> Result<Self, AllocError> {
        Ok(NullArray {
            data_type: self.data_type.clone()?,
            len: self.len,
        })
    }
}

/// Prints the data type and the number of slots.
impl fmt::Debug for NullArray {
    fn fmt<W: fmt::Write>(&self, f: &mut fmt::Formatter<W>) -> fmt::Result {
        f.debug_struct("NullArray")
            .field("data_type", &self.data_type)
            .field("len", &self.len)
            .finish()
    }
}
