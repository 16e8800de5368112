//! What may go wrong outside, and lack of memory.
use std::alloc::{AllocError, AllocFailed};

/// Out of memory.
#[derive(Clone, Copy, Debug, PartialEq, Eq)]
pub struct NoMemory;

impl From<AllocError> for NoMemory {
    fn from(_: AllocError) -> NoMemory {
        NoMemory
    }
}

impl<T: Drop> From<AllocFailed<T>> for NoMemory {
    fn from(_: AllocFailed<T>) -> NoMemory {
        NoMemory
    }
}

/// A call on an object outside failed, and its count of faults rose.
#[derive(Clone, Copy, Debug, PartialEq, Eq)]
pub struct Failed;

/// A fault of a call that may also want memory of its own.
#[derive(Clone, Copy, Debug, PartialEq, Eq)]
pub enum OuterFault {
    /// The object's count of faults rose.
    Failed,
    /// The object found no memory, and its count stayed.
    NoMemory,
}

impl From<NoMemory> for OuterFault {
    ghost use Rattle.std.specs.Prelude.{◌≡◌};
    ghost use Rattle.pf_base.specs.declared.fault.OuterFault.TheVariants.{NoMemory};

    ghost from_gives = { λ _ fault. fault ≡ NoMemory };

    fn from(_: NoMemory) -> OuterFault {
        OuterFault::NoMemory
    }
}
