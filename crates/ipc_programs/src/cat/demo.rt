//! The example: two columns of integers, written five times.
ghost use Rattle.std.specs.Prelude.{◌≡◌, [], map, IfErr, IfOk, OnOk};
ghost use Rattle.lower.specs.TypeViews.{fields_view, pairs_of};
ghost use Rattle.lower_arrays.specs.AnyLayouts.{layout_of};
ghost use Rattle.ipc_devices.specs.Faults.{OwnFault};
ghost use Rattle.ipc_model.specs.Samples.{demo, integers_are};
ghost use Rattle.ipc_programs.specs.Demo.{demo_fields};
ghost use Rattle.ipc_programs.specs.Printing.{Prints};

use crate::cat::printer::Printer;
use arrow2_ipc::array::{AnyArray, Int32Array};
use arrow2_ipc::chunk::Chunk;
use arrow2_ipc::datatypes::{DataType, Field, Schema};
use arrow2_ipc::io::ipc::fault::{Fault, Writes};
use arrow2_ipc::io::ipc::write::{StreamWriter, WriteOptions};
use std::alloc::Global;

// More bytes than the example needs.
const ROOM: usize = 4096;

/// Prints the example, as a stream. The errors are `Memory` and `Io`.
pub fn put_demo<W: Writes>(alloc: Global, printer: &mut Printer<W>) -> Result<(), Fault>
    ensures only { IfErr result (λ e. OwnFault e ⊥) }
    ensures prints { OnOk result (Prints W.device printer.old printer.new) }
{
    let mut stream = Vec::with_capacity(alloc, ROOM)?;
    write_demo(alloc, &mut stream)?;
    printer.put(&stream)
}

// Writes the example as a stream, and flushes. The errors are `Memory` and `Io`.
fn write_demo<W: Writes + Drop>(alloc: Global, out: W) -> Result<(), Fault>
    ensures { IfErr result (λ e. OwnFault e ⊥) }
{
    let schema = demo_schema(alloc)?;
    let chunk = demo_chunk(alloc)?;
    let mut writer = StreamWriter::new(alloc, out, WriteOptions::default());
    writer.start(&schema, None)?;
    for _ in 0..5 {
        writer.write(&chunk, None)?;
    }
    writer.finish()?;
    writer.into_inner().flush()?;
    Ok(())
}

fn demo_schema(alloc: Global) -> Result<Schema, Fault>
    ensures fields { IfOk result (λ schema. fields_view schema.fields.items ≡ demo_fields) }
    ensures metadata { IfOk result (λ schema. pairs_of schema.metadata.entries ≡ []) }
    ensures only { IfErr result (λ e. OwnFault e ⊥) }
{
    let x = Field::new("x".to_string(alloc)?, DataType::Int32, false);
    let y = Field::new("y".to_string(alloc)?, DataType::Int32, false);
    Ok(Schema::from(vec![in alloc; x, y]?))
}

fn demo_chunk(alloc: Global) -> Result<Chunk<AnyArray>, Fault>
    ensures columns { IfOk result (λ chunk. map layout_of chunk ≡ demo) }
    ensures only { IfErr result (λ e. OwnFault e ⊥) }
{
    let x = demo_column(alloc, [-1, 1])?;
    let y = demo_column(alloc, [1, -1])?;
    Chunk::try_new(vec![in alloc; x, y]?)
}

fn demo_column(alloc: Global, numbers: [i32; 2]) -> Result<AnyArray, Fault>
    ensures is { IfOk result (λ column. layout_of column ≡ integers_are numbers) }
    ensures only { IfErr result (λ e. OwnFault e ⊥) }
{
    Ok(AnyArray::from(Int32Array::from_slice(alloc, &numbers)?))
}
