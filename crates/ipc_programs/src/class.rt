//! The classes of errors that the programs print.
ghost use Rattle.std.specs.Prelude.{◌≡◌};
ghost use Rattle.ipc_plan.specs.Sending.{Sends};
ghost use Rattle.ipc_programs.specs.Classes.{class};
ghost use Rattle.ipc_programs.specs.Lines.{line_of};

use arrow2_ipc::io::ipc::fault::{Fault, Writes};
use ipc_write::common_sync::write_all;

/// The class of an error, as it is printed on standard error.
pub fn class_of(fault: &Fault) -> &'static str
    ensures { result.now ≡ class fault.now }
{
    match fault {
        Fault::OutOfSpec(_) => "out of spec",
        Fault::Ended => "input ended",
        Fault::NotYetImplemented(_) => "not yet implemented",
        Fault::Schema(_) => "bad schema",
        Fault::Argument(_) => "bad argument",
        Fault::State(_) => "bad state",
        Fault::TooManyDictionaries => "too many dictionaries",
        Fault::Io(_) => "input or output failed",
        Fault::Memory => "no memory",
        Fault::Lower(_) => "bad array",
    }
}

/// Writes a line with the name of the program and the class of an error.
///
/// `Io` if that fails.
pub fn tell<E: Writes>(err: &mut E, program: &str, fault: &Fault) -> Result<(), Fault>
    ensures sends { Sends E.device (line_of program.now fault.now) err.old result err.new }
{
    write_all(err, program.as_bytes())?;
    write_all(err, b": ")?;
    write_all(err, class_of(fault).as_bytes())?;
    write_all(err, b"\n")
}
