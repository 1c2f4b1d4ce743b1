//! Fills a buffer, or fails.
ghost use Rattle.std.specs.Prelude.{◌≡◌, ◌+◌, ◌≤◌, length, take, drop, IsTrue, IfErr, OnOk};
ghost use Rattle.ipc_devices.specs.Acts.{ReadsDevice};
ghost use Rattle.ipc_devices.specs.Device.{after};
ghost use Rattle.ipc_devices.specs.Faults.{OwnFault, Answers};
ghost use Rattle.ipc_devices.specs.declared.fault.Fault.TheVariants.{Ended};

use ipc_devices::fault::Fault;
use ipc_devices::{Reads, fill};

// Reads until the buffer is full, or returns `Ended`.
pub(super) fn read_exact<R: Reads>(reader: &mut R, buf: &mut [u8]) -> Result<(), Fault>
    ensures only { IfErr result (λ e. OwnFault e (e ≡ Ended)) }
    ensures device { ReadsDevice R.device reader.old result reader.new }
    ensures given { R.device.given reader.new ≤ R.device.given reader.old + length buf.old }
    ensures left { IsTrue R.device.is_memory
        → OnOk result
        (after (R.device.memory reader.new)
        ≡ drop (length buf.old) (after (R.device.memory reader.old))) }
    ensures memory { IsTrue R.device.is_memory → Answers result
        (length buf.old ≤ length (after (R.device.memory reader.old)))
        (λ _. buf.new ≡ take (length buf.old) (after (R.device.memory reader.old))) }
{
    let n = fill(reader, buf)?;
    if n < buf.len() {
        return Err(Fault::Ended);
    }
    Ok(())
}
