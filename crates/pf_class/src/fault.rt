//! Why a question on addresses has no answer.
ghost use Rattle.std.specs.Prelude.{◌≡◌};

use pf_base::NoMemory;

/// Why a question that asks tables has no answer.
#[derive(Clone, Copy, Debug, PartialEq, Eq)]
pub enum ClassFault {
    /// A lookup failed.
    LookupFailed,
    /// Out of memory.
    NoMemory,
}

impl From<NoMemory> for ClassFault {
    ghost use Rattle.pf_class.specs.declared.fault.ClassFault.{ClassFault};

    ghost from_gives = { λ _ fault. fault ≡ ClassFault.NoMemory };

    fn from(_: NoMemory) -> ClassFault {
        ClassFault::NoMemory
    }
}
