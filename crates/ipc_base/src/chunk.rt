//! Chunks: columns of the same length, in which data is written and read.
ghost use Rattle.std.specs.Prelude.{◌≡◌, ◌↔◌, ◌+◌, ◌<◌, ◌≤◌, ◌^◌, ℕ, Bool, length, map, IsTrue, IsOk, IfOk, IfErr, SomeIff};
ghost use Rattle.std.specs.Option.{option_map};
ghost use Rattle.std.specs.Cmp.Lexicographic.{pointwise, lists_per, lists_equiv};
ghost use Rattle.std.specs.List.{AllZip};
ghost use Rattle.std.specs.Slice.Iter.{iter_rest};
ghost use Rattle.std.specs.Iterator.Adapters.{IterYieldsInOrder};
ghost use Rattle.lower_arrays.specs.Layouts.{len_of};
ghost use Rattle.lower_arrays.specs.Cuts.{cut};
ghost use Rattle.lower_arrays.specs.AnyLayouts.{layout_of};
ghost use Rattle.ipc_base.specs.Chunks.{AreEqualRows, row_count};
ghost use Rattle.ipc_devices.specs.declared.fault.Fault.TheVariants.{Argument};
ghost use Rattle.ipc_devices.specs.declared.fault.ArgFault.TheVariants.{UnequalRows};

use crate::fault::{ArgFault, Fault};
use lower_arrays::array::{AnyArray, compact_each, is_range, retained_each, sliced_each};
use std::alloc::{AllocError, Global};
use std::marker::Model;
use std::slice;

/// A column, of which only the number of rows counts here.
pub trait Rows: Drop {
    ghost rows: { Self → ℕ };

    /// Returns the number of rows.
    fn len(&self) -> usize
        ensures { result ≡ rows self.now };
}

impl Rows for AnyArray {
    ghost use Rattle.lower_arrays.specs.Layouts.{len_of};
    ghost use Rattle.lower_arrays.specs.AnyLayouts.{layout_of};

    ghost rows = { λ array. len_of (layout_of array) };

    fn len(&self) -> usize {
        AnyArray::len(self)
    }
}

impl<'a, A: Rows> Rows for &'a A {
    ghost rows = { λ array. A.rows array.now };

    fn len(&self) -> usize {
        A::len(*self)
    }
}

impl<A: Rows> Rows for Box<A> {
    ghost rows = { λ array. A.rows array.value };

    fn len(&self) -> usize {
        A::len(&**self)
    }
}

/// Returns whether all columns have the same number of rows, as a [`Chunk`] needs.
pub fn equal_rows<A: Rows>(arrays: &[A]) -> bool
    ensures { IsTrue result ↔ AreEqualRows A.rows arrays.now }
{
    let Some(first) = arrays.first() else {
        return true;
    };
    let rows = first.len();
    arrays.iter().all(|array| array.len() == rows)
}

/// Columns with the same number of rows, in order. Its model is the list of the columns.
#[derive(Debug, Drop)]
pub struct Chunk<A: Rows> {
    arrays: Vec<A>,
}

impl<A: Rows> Model for Chunk<A> {
    ghost use Rattle.std.specs.Prelude.{List};
    ghost use Rattle.ipc_base.specs.Chunks.{AreEqualRows};

    ghost Value = { List A };

    ghost view = { λ chunk. chunk.arrays.items };

    ghost invariant = { λ chunk. AreEqualRows A.rows chunk.arrays.items };
}

impl<A: Rows> Chunk<A> {
    /// Returns a chunk of these columns, which must have the same number of rows.
    ///
    /// [`equal_rows`] tests that.
    pub fn new(arrays: Vec<A>) -> Self
        requires { AreEqualRows A.rows arrays.items }
        ensures { result ≡ arrays.items }
    {
        Self { arrays }
    }

    /// Returns a chunk of these columns.
    ///
    /// The error is `Fault::Argument(ArgFault::UnequalRows)`, exactly if the columns have different
    /// numbers of rows. They are dropped then.
    pub fn try_new(arrays: Vec<A>) -> Result<Self, Fault>
        ensures ok { IsOk result ↔ AreEqualRows A.rows arrays.items }
        ensures value { IfOk result (λ chunk. chunk ≡ arrays.items) }
        ensures only { IfErr result (λ fault. fault ≡ Argument UnequalRows) }
    {
        if equal_rows(&arrays) {
            Ok(Chunk { arrays })
        } else {
            Err(Fault::Argument(ArgFault::UnequalRows))
        }
    }

    /// Returns the columns.
    pub fn arrays(&self) -> &[A]
        ensures columns { result.now ≡ self.now }
        ensures equal { AreEqualRows A.rows self.now }
    {
        self.arrays.as_slice()
    }

    /// Returns the columns, as [`Chunk::arrays`].
    pub fn columns(&self) -> &[A]
        ensures columns { result.now ≡ self.now }
        ensures equal { AreEqualRows A.rows self.now }
    {
        self.arrays()
    }

    /// Iterates over the columns, in order, as a `for` over the chunk does.
    pub fn iter(&self) -> slice::Iter<'_, A>
        ensures rest { iter_rest result ≡ self.now }
        ensures bound { length (iter_rest result) < 2 ^ 64 }
        ensures runs { IterYieldsInOrder A }
    {
        self.columns().iter()
    }

    /// Returns the number of rows, which is 0 without columns.
    pub fn len(&self) -> usize
        ensures rows { result ≡ row_count A.rows self.now }
        ensures equal { AreEqualRows A.rows self.now }
    {
        match self.arrays.first() {
            Some(array) => array.len(),
            None => 0,
        }
    }

    /// Returns whether there are no rows.
    pub fn is_empty(&self) -> bool
        ensures { IsTrue result ↔ (row_count A.rows self.now ≡ 0) }
    {
        self.len() == 0
    }

    /// Returns the columns, which have the same number of rows.
    pub fn into_arrays(self) -> Vec<A>
        ensures columns { result.items ≡ self }
        ensures equal { AreEqualRows A.rows self }
    {
        let Chunk { arrays } = self;
        arrays
    }
}

impl<'a, A: Rows> IntoIterator for &'a Chunk<A> {
    type Item = &'a A;

    type IntoIter = slice::Iter<'a, A>;

    ghost into_iter_gives = { λ chunk rest. (iter_rest rest ≡ chunk.now) × (length (iter_rest rest) < 2 ^ 64) × IterYieldsInOrder A };

    fn into_iter(self) -> slice::Iter<'a, A> {
        self.iter()
    }
}

impl<A: Rows> From<Chunk<A>> for Vec<A> {
    ghost from_gives = { λ chunk arrays. arrays.items ≡ chunk };

    fn from(chunk: Chunk<A>) -> Vec<A> {
        chunk.into_arrays()
    }
}

impl<A: Rows + Clone> Chunk<A> {
    /// Returns a chunk of clones of the columns, in order.
    ///
    /// A clone of a column must keep its number of rows. The chunks are equal by each comparison
    /// that a column and its clone pass, such as `==` of arrays. It fails if an allocation or a
    /// clone of a column fails.
    pub fn clone(&self) -> Result<Self, AllocError>
        requires { (array copy : A) → A.is_clone array copy → A.rows copy ≡ A.rows array }
        ensures clones { IfOk result (λ copy. AllZip A.is_clone self.now copy) }
        ensures equal { (test : A → A → Bool)
            → ((array copy : A) → A.is_clone array copy → IsTrue (test array copy))
            → IfOk result (λ copy. IsTrue (pointwise test self.now copy)) }
    {
        let arrays = self.arrays.clone()?;
        Ok(Chunk { arrays })
    }
}

impl Chunk<AnyArray> {
    /// Returns the number of bytes that stay allocated as long as the chunk exists.
    ///
    /// It is the sum over its columns, as [`AnyArray::retained_bytes`]: memory that several columns
    /// share counts for each.
    pub fn retained_bytes(&self) -> usize {
        retained_each(self.arrays())
    }

    /// Returns a chunk of the same columns in memory of its own.
    ///
    /// A chunk that was read from shared memory then no longer retains all of it. The error is
    /// `Fault::Memory`.
    pub fn compact(&self, alloc: Global) -> Result<Self, Fault>
        ensures { IfOk result (λ copy. map layout_of copy ≡ map layout_of self.now) }
    {
        Chunk::try_new(compact_each(alloc, self.arrays())?)
    }

    /// Returns the `len` rows from `offset`, in the same memory. It allocates nothing.
    ///
    /// It is `None` if the chunk hasn't all of them; the chunk is dropped then.
    #[tactic(auto, using(crate::proofs::CutRows::cut_rows))]
    pub fn try_sliced(self, offset: usize, len: usize) -> Option<Self>
        ensures { SomeIff (option_map (map layout_of) result)
            (offset + len ≤ row_count (λ array. len_of (layout_of array)) self)
            (map (cut offset len) (map layout_of self)) }
    {
        if !is_range(offset, len, self.len()) {
            return None;
        }
        let arrays = sliced_each(self.into_arrays(), offset, len);
        Some(Chunk::new(arrays))
    }
}

impl<A: Rows + PartialEq> PartialEq for Chunk<A> {
    ghost eq = { pointwise A.eq };

    ghost laws = { lists_per A.laws };

    fn eq(&self, other: &Self) -> bool {
        self.arrays == other.arrays
    }
}

impl<A: Rows + Eq> Eq for Chunk<A> {
    ghost laws = { lists_equiv A.Eq.laws };
}
