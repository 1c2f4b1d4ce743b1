//! Chunks whose columns are of a type that is no array.

use ipc_base::chunk::{Chunk, Rows, equal_rows};
use ipc_devices::{ArgFault, Fault};
use std::alloc::{AllocError, Global};
use std::test::Fail;

// A column that has a length and no values.
#[derive(Clone, Copy, PartialEq, Eq)]
struct Blank(usize);

impl Rows for Blank {
    ghost rows = { λ blank. blank.0 };

    fn len(&self) -> usize {
        self.0
    }
}

// Whether a chunk has two columns of two rows.
fn is_two_by_two(chunk: &Chunk<Blank>) -> bool {
    chunk.len() == 2
        && !chunk.is_empty()
        && chunk.columns().len() == 2
        && chunk.arrays().len() == 2
        && chunk.iter().next() == Some(&Blank(2))
}

#[test]
fn columns_of_equal_length_make_a_chunk(rt: HostRuntime) -> Result<(), Fault> {
    let alloc = rt.alloc();
    let arrays = vec![in alloc; Blank(2), Blank(2)]?;
    // `try_new` allocates nothing, so only the lengths can make it fail.
    let Ok(chunk) = Chunk::try_new(arrays) else {
        assert!(rt; false);
        return Ok(());
    };
    assert!(rt; is_two_by_two(&chunk));
    let again = chunk.clone()?;
    assert!(rt; again == chunk);
    let arrays: Vec<Blank> = Vec::from(again);
    assert!(rt; equal_rows(&arrays));
    assert!(rt; Chunk::new(arrays) == chunk);
    assert_eq!(rt; chunk.into_arrays().len(), 2);
    Ok(())
}

// Whether this is a chunk without rows.
fn is_empty(made: Result<Chunk<Blank>, Fault>) -> bool {
    match made {
        Ok(chunk) => chunk.len() == 0 && chunk.is_empty(),
        Err(_) => false,
    }
}

#[test]
fn chunk_without_columns_has_no_rows(rt: HostRuntime) -> Result<(), Fail> {
    assert!(rt; is_empty(Chunk::try_new(Vec::new(rt.alloc()))));
    Ok(())
}

fn has_message(alloc: Global, fault: &Fault, text: &str) -> Result<bool, AllocError> {
    Ok(format!(in alloc; "{fault}")?.as_str() == text)
}

#[test]
fn columns_of_different_lengths_are_refused(rt: HostRuntime) -> Result<(), Fail> {
    let alloc = rt.alloc();
    let arrays = vec![in alloc; Blank(2), Blank(3)]?;
    assert!(rt; !equal_rows(&arrays));
    let Err(fault) = Chunk::try_new(arrays) else {
        assert!(rt; false);
        return Ok(());
    };
    let text = "Chunk require all its arrays to have an equal number of rows";
    assert!(rt; has_message(alloc, &fault, text)?);
    let unequal = match fault {
        Fault::Argument(ArgFault::UnequalRows) => true,
        _ => false,
    };
    assert!(rt; unequal);
    Ok(())
}
