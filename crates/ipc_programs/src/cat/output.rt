//! A borrowed output.
ghost use Rattle.std.specs.Prelude.{◌≡◌};
ghost use Rattle.ipc_programs.specs.Outputs.{FlushesOutput, WritesOutput};

use arrow2_ipc::io::ipc::fault::{Fault, Writes};
use ipc_write::common_sync::write_all;

/// A borrowed device.
#[derive(Drop)]
pub struct Output<'a, W> {
    device: &'a mut W,
}

impl<'a, W: Writes> Output<'a, W> {
    /// Borrows a device.
    pub fn new(device: &'a mut W) -> Output<'a, W>
        ensures same_reference { result.device.ghost_name ≡ device.entry.ghost_name }
        ensures now { result.device.now ≡ device.entry.now }
    {
        Output { device }
    }

    /// The borrowed device.
    pub fn into_inner(self) -> &'a mut W
        ensures same_reference { result.ghost_name ≡ self.entry.device.ghost_name }
        ensures now { result.now ≡ self.entry.device.now }
    {
        self.device
    }

    /// Writes all of these bytes. `Io` if a write fails; a prefix of the bytes was written then.
    pub fn write_all(&mut self, bytes: &[u8]) -> Result<(), Fault>
        ensures { WritesOutput W.device self.old result self.new bytes.now }
    {
        write_all(&mut *self.device, bytes)
    }

    /// Flushes the device. `Io` if that fails.
    pub fn flush(&mut self) -> Result<(), Fault>
        ensures { FlushesOutput W.device self.old result self.new }
    {
        self.device.flush()?;
        Ok(())
    }
}
