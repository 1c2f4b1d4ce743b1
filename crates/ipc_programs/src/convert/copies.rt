//! The copies that the forms need. Their devices are borrowed.
ghost use Rattle.std.specs.Prelude.{◌≡◌, [], IfErr, IfOk, IsTrue, OnOk};
ghost use Rattle.ipc_devices.specs.Faults.{OwnFault};
ghost use Rattle.ipc_model.specs.Streams.{marked};
ghost use Rattle.ipc_write.specs.Writers.{order_of};
ghost use Rattle.ipc_convert.specs.Chunks.{NoneFailed};
ghost use Rattle.ipc_convert.specs.Copies.{AppendsTo, CopiesFileOf, CopiesStream, TakesStream, WritesFile, WritesStream};
ghost use Rattle.ipc_programs.specs.Refusals.{AppendInputCause, CopyInputCause, CopyOpenedCause};
ghost use Rattle.ipc_programs.specs.Written.{CopiesInput, CopiesOpened};

use crate::convert::forms::Target;
use arrow2_ipc::io::ipc::fault::{Fault, Reads, Seeks, Writes};
use arrow2_ipc::io::ipc::write::WriteOptions;
use ipc_convert::append::append_stream;
use ipc_convert::files::{file_to_file, stream_to_file};
use ipc_convert::streams::{file_to_stream, stream_to_stream};
use ipc_devices::itself;
use std::alloc::Global;

/// Copies the stream `input` to `out`, as the target says.
pub fn copy_input<R: Reads, O: Writes>(
    alloc: Global,
    input: &mut R,
    out: &mut O,
    target: Target,
    write_options: WriteOptions,
) -> Result<(), Fault>
    ensures takes { OnOk result (TakesStream R.gives input.old input.new) }
    ensures done { OnOk result (R.device.failures input.new ≡ R.device.failures input.old) }
    ensures copies { IsTrue O.device.is_memory → OnOk result
        (CopiesInput R.gives input.old input.new target write_options (O.device.memory out.old)
        (O.device.memory out.new)) }
    ensures refused { IfErr result (λ e. OwnFault e
        (CopyInputCause R.gives R.device input.old O.device out.old target write_options e)) }
{
    match target {
        Target::Stream => input_to_stream(alloc, input, out, write_options),
        Target::File => input_to_file(alloc, input, out, write_options),
    }
}

/// Copies the file `file` to `out`, as the target says.
pub fn copy_file<F: Reads + Seeks + Drop, O: Writes>(
    alloc: Global,
    file: F,
    out: &mut O,
    target: Target,
    write_options: WriteOptions,
) -> Result<(), Fault>
    ensures copies { IsTrue O.device.is_memory → OnOk result
        (CopiesOpened F.device file target write_options
        (O.device.memory out.old) (O.device.memory out.new)) }
    ensures refused { IfErr result (λ e. OwnFault e (CopyOpenedCause F.device file O.device
        out.old target write_options e)) }
{
    match target {
        Target::Stream => opened_to_stream(alloc, file, out, write_options),
        Target::File => opened_to_file(alloc, file, out, write_options),
    }
}

/// Appends the chunks of the stream `input` to the file `file`, whose device it returns.
pub fn append_input<F: Reads + Writes + Seeks + Drop, R: Reads>(
    alloc: Global,
    file: F,
    input: &mut R,
) -> Result<F, Fault>
    ensures takes { IfOk result (λ device. TakesStream R.gives input.old input.new) }
    ensures done { IfOk result (λ device.
        NoneFailed F.device.failures R.device.failures file input.old device input.new) }
    ensures flushed { IfOk result (λ device. IsTrue (F.device.is_flushed device)) }
    ensures appends { IsTrue F.device.is_memory → (F.device.memory file).place ≡ 0
        → IfOk result (λ device. CopiesStream R.gives input.old input.new
        (λ schema chunks _. AppendsTo (F.device.memory file).whole (F.device.memory device).whole
        schema chunks)) }
    ensures refused { IfErr result (λ e. OwnFault e
        (AppendInputCause R.gives R.device input.old F.device file e)) }
{
    let (file, input) = append_stream(alloc, file, input)?;
    itself(input);
    Ok(file)
}

fn input_to_stream<R: Reads, O: Writes>(
    alloc: Global,
    input: &mut R,
    out: &mut O,
    write_options: WriteOptions,
) -> Result<(), Fault>
    ensures takes { OnOk result (TakesStream R.gives input.old input.new) }
    ensures done { OnOk result (R.device.failures input.new ≡ R.device.failures input.old) }
    ensures copies { IsTrue O.device.is_memory
        → OnOk result (CopiesStream R.gives input.old input.new
        (WritesStream (order_of write_options) (O.device.memory out.old)
        (O.device.memory out.new))) }
    ensures refused { IfErr result (λ e. OwnFault e
        (CopyInputCause R.gives R.device input.old O.device out.old Target.Stream write_options
        e)) }
{
    let (input, out) = stream_to_stream(alloc, input, out, write_options)?;
    itself(input);
    itself(out);
    Ok(())
}

fn input_to_file<R: Reads, O: Writes>(
    alloc: Global,
    input: &mut R,
    out: &mut O,
    write_options: WriteOptions,
) -> Result<(), Fault>
    ensures takes { OnOk result (TakesStream R.gives input.old input.new) }
    ensures done { OnOk result (R.device.failures input.new ≡ R.device.failures input.old) }
    ensures copies { IsTrue O.device.is_memory
        → OnOk result (CopiesStream R.gives input.old input.new
        (λ schema chunks _. WritesFile (order_of write_options) (O.device.memory out.old)
        (O.device.memory out.new) schema [] chunks)) }
    ensures refused { IfErr result (λ e. OwnFault e
        (CopyInputCause R.gives R.device input.old O.device out.old Target.File write_options e)) }
{
    let (input, out) = stream_to_file(alloc, input, out, write_options)?;
    itself(input);
    itself(out);
    Ok(())
}

fn opened_to_stream<F: Reads + Seeks + Drop, O: Writes>(
    alloc: Global,
    file: F,
    out: &mut O,
    write_options: WriteOptions,
) -> Result<(), Fault>
    ensures copies { IsTrue O.device.is_memory
        → OnOk result (CopiesFileOf F.device file
        (λ schema _ chunks. WritesStream (order_of write_options) (O.device.memory out.old)
        (O.device.memory out.new) schema chunks marked)) }
    ensures refused { IfErr result (λ e. OwnFault e (CopyOpenedCause F.device file O.device
        out.old Target.Stream write_options e)) }
{
    let (file, out) = file_to_stream(alloc, file, out, write_options)?;
    drop(file);
    itself(out);
    Ok(())
}

fn opened_to_file<F: Reads + Seeks + Drop, O: Writes>(
    alloc: Global,
    file: F,
    out: &mut O,
    write_options: WriteOptions,
) -> Result<(), Fault>
    ensures copies { IsTrue O.device.is_memory
        → OnOk result (CopiesFileOf F.device file
        (WritesFile (order_of write_options) (O.device.memory out.old) (O.device.memory out.new))) }
    ensures refused { IfErr result (λ e. OwnFault e (CopyOpenedCause F.device file O.device
        out.old Target.File write_options e)) }
{
    let (file, out) = file_to_file(alloc, file, out, write_options)?;
    drop(file);
    itself(out);
    Ok(())
}
