//! Why a case gives no value.

use ipc_devices::fault::Fault;
use lower::error::Error as ArrayError;
use std::alloc::{AllocError, AllocFailed};
use std::{fmt, io};

/// Why a case gives no value.
#[derive(Drop)]
pub enum Failure {
    /// The case isn't in the notation: which part of it.
    Notation(&'static str),
    /// The call returned an error, which a case may expect.
    Refused(Fault),
}

impl fmt::Display for Failure {
    fn fmt<W: fmt::Write>(&self, f: &mut fmt::Formatter<W>) -> fmt::Result {
        match self {
            Failure::Notation(part) => write!(f, "{part}"),
            Failure::Refused(fault) => write!(f, "{fault:?}"),
        }
    }
}

impl From<Fault> for Failure {
    fn from(fault: Fault) -> Failure {
        Failure::Refused(fault)
    }
}

impl From<ArrayError> for Failure {
    fn from(error: ArrayError) -> Failure {
        Failure::Refused(Fault::Lower(error))
    }
}

impl From<io::Error> for Failure {
    fn from(error: io::Error) -> Failure {
        Failure::Refused(Fault::Io(error))
    }
}

impl From<AllocError> for Failure {
    fn from(_error: AllocError) -> Failure {
        Failure::Refused(Fault::Memory)
    }
}

impl<T: Drop> From<AllocFailed<T>> for Failure {
    fn from(_error: AllocFailed<T>) -> Failure {
        Failure::Refused(Fault::Memory)
    }
}
