//! Values in contiguous memory that several owners may share.
//!
//! Arrow columnar format, "Physical Memory Layout": the memory of an array consists of such
//! buffers, and a slice of an array shares them.
ghost use Rattle.std.specs.Prelude.{◌≡◌, ◌+◌, ◌-◌, ◌*◌, ◌<◌, ◌≤◌, min, length, take, drop, IfOk, MatchResult, List, slice_index_or, nat_eq, IsTrue, ◌↔◌, [], ◌^◌};
ghost use Rattle.std.specs.Slice.Iter.{iter_rest};
ghost use Rattle.std.specs.Iterator.Adapters.{IterYieldsInOrder};

use lower_types::NativeType;
use std::alloc::{AllocError, Global};
use std::marker::Model;
use std::ops::Index;
use std::sync::Arc;
use std::{fmt, slice};

/// All values of a vector or a range of them. Clones and slices share the memory.
#[derive(Drop)]
pub struct Buffer<T: Copy> {
    all: Arc<Vec<T>>,
    offset: usize,
    len: usize,
}

impl<T: Copy> Model for Buffer<T> {
    ghost use Rattle.std.specs.Prelude.{ℕ, ◌+◌, ◌≤◌, List, take, drop, length};

    ghost Value = { List T };

    ghost view = { λ a. take a.len (drop a.offset a.all.value.items) };

    ghost invariant = { λ a. a.offset + a.len ≤ length a.all.value.items };
}

impl<T: Copy> Clone for Buffer<T> {
    ghost is_clone = { λ a b. b ≡ a };

    fn clone(&self) -> Result<Buffer<T>, AllocError> {
        Ok(Buffer {
            all: self.all.clone()?,
            offset: self.offset,
            len: self.len,
        })
    }
}

impl<T: Copy> Index<usize> for Buffer<T> {
    type Output = T;

    ghost can_index = { λ b i. i < length b };

    ghost index_gives = { λ b i x. x ≡ slice_index_or b i x };

    fn index(&self, index: usize) -> &T {
        &self.as_slice()[index]
    }
}

impl<T: Copy> Buffer<T> {
    /// Returns a buffer of all values of a vector.
    ///
    /// No value is copied. One small block is allocated to count the owners, and it fails only if
    /// that allocation does.
    pub fn new(all: Vec<T>) -> Result<Self, AllocError>
        ensures { IfOk result (λ b. b ≡ all.items) }
    {
        let len = all.len();
        Ok(Buffer {
            all: Arc::new(*all.allocator(), all)?,
            offset: 0,
            len,
        })
    }

    /// Returns the number of values.
    pub fn len(&self) -> usize
        ensures { result ≡ length self.now }
    {
        self.len
    }

    /// Returns whether there is no value.
    pub fn is_empty(&self) -> bool
        ensures { IsTrue result ↔ self.now ≡ [] }
    {
        self.len == 0
    }

    /// Returns the values as a slice.
    pub fn as_slice(&self) -> &[T]
        ensures { result.now ≡ self.now }
    {
        &self.all[self.offset..self.offset + self.len]
    }

    /// Returns the `len` values from index `offset`, in the same memory.
    pub fn sliced(self, offset: usize, len: usize) -> Self
        requires { offset + len ≤ length self }
        ensures { result ≡ take len (drop offset self) }
    {
        let Buffer {
            all,
            offset: start,
            ..
        } = self;
        Buffer {
            all,
            offset: start + offset,
            len,
        }
    }

    /// Keeps only the `len` values from index `offset`.
    pub fn slice(&mut self, offset: usize, len: usize)
        requires { offset + len ≤ length self.old }
        ensures { self.new ≡ take len (drop offset self.old) }
    {
        self.offset += offset;
        self.len = len;
    }

    /// Returns another buffer of the `len` values from index `offset`, in the same memory.
    ///
    /// No value is copied. It fails only if the count of owners can't grow.
    pub fn part(&self, offset: usize, len: usize) -> Result<Self, AllocError>
        requires { offset + len ≤ length self.now }
        ensures { IfOk result (λ b. b ≡ take len (drop offset self.now)) }
    {
        Ok(self.clone()?.sliced(offset, len))
    }

    /// Returns the whole vector, if this is the only owner of its memory.
    ///
    /// Otherwise, or if the buffer is only a part of the vector, the error is the buffer itself,
    /// unchanged.
    pub fn into_vec(self) -> Result<Vec<T>, Self>
        ensures { MatchResult result (λ v. v.items ≡ self) (λ b. b ≡ self) }
    {
        let Buffer { all, offset, len } = self;
        if offset != 0 || len != all.len() {
            return Err(Buffer { all, offset, len });
        }
        match Arc::try_unwrap(all) {
            Ok(vec) => Ok(vec),
            Err(all) => Err(Buffer { all, offset, len }),
        }
    }

    /// Returns a buffer of the same values in memory of its own, which has no others.
    pub fn compact(&self, alloc: Global) -> Result<Self, AllocError>
        ensures { IfOk result (λ b. b ≡ self.now) }
    {
        Buffer::new(Vec::from_slice(alloc, self.as_slice())?)
    }

    /// Iterates over the values, in order.
    pub fn iter(&self) -> slice::Iter<'_, T>
        ensures rest { iter_rest result ≡ self.now }
        ensures bound { length (iter_rest result) < 2 ^ 64 }
        ensures runs { IterYieldsInOrder T }
    {
        self.as_slice().iter()
    }
}

impl<T: NativeType> Buffer<T> {
    /// Returns the number of bytes that stay allocated as long as this buffer exists.
    ///
    /// It is that of the whole memory, even if this buffer is only a part of it, and also if other
    /// buffers share it. It is `usize::MAX` if there are more.
    pub fn retained_bytes(&self) -> usize
        ensures { min (T.width * length self.now) (2 ^ 64 - 1) ≤ result }
    {
        self.all.capacity().saturating_mul(T::width())
    }
}

/// Prints the values as a slice.
impl<T: Copy + fmt::Debug> fmt::Debug for Buffer<T> {
    fn fmt<W: fmt::Write>(&self, f: &mut fmt::Formatter<W>) -> fmt::Result {
        fmt::Debug::fmt(self.as_slice(), f)
    }
}
