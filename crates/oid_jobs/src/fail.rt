//! Why a job ends early.

use std::alloc::{AllocError, AllocFailed};
use std::io;

#[derive(Debug, Drop)]
pub enum Fail {
    /// The words are not `JOB SEED TURNS`.
    Usage,
    /// Memory ran out.
    Memory,
    /// The runtime failed to read or write.
    Io,
    /// An input that should be valid was rejected.
    Rejected,
}

impl From<AllocError> for Fail {
    fn from(_error: AllocError) -> Fail {
        Fail::Memory
    }
}

impl<T: Drop> From<AllocFailed<T>> for Fail {
    fn from(_error: AllocFailed<T>) -> Fail {
        Fail::Memory
    }
}

impl From<io::Error> for Fail {
    fn from(_error: io::Error) -> Fail {
        Fail::Io
    }
}

impl From<const_oid::Error> for Fail {
    fn from(_error: const_oid::Error) -> Fail {
        Fail::Rejected
    }
}
