//! Why a case is not run. docs/CASES.md lists the words of each refusal.
use pf_base::NoMemory;
use std::alloc::{AllocError, AllocFailed};

/// What is wrong with the text of a case.
#[derive(Clone, Copy)]
pub enum Refusal {
    Statement,
    Section,
    Command,
    Quote,
    TwoSections,
    TwoStatements,
    SessionLine,
    Escape,
    Cells,
    Columns,
    Rows,
    Name,
}

impl Refusal {
    /// The words that a case expects by `refused:`.
    pub fn text(self) -> &'static str {
        match self {
            Refusal::Statement => "no such statement",
            Refusal::Section => "no such section",
            Refusal::Command => "no command",
            Refusal::Quote => "open quote",
            Refusal::TwoSections => "two sections of one title",
            Refusal::TwoStatements => "two statements of one kind",
            Refusal::SessionLine => "no line of a session",
            Refusal::Escape => "bad escape",
            Refusal::Cells => "another number of cells",
            Refusal::Columns => "two columns of one name",
            Refusal::Rows => "no rows",
            Refusal::Name => "case without a name",
        }
    }
}

/// Why reading a case ended.
#[derive(Clone, Copy)]
pub enum Fault {
    Memory,
    Refused(Refusal),
}

impl From<NoMemory> for Fault {
    fn from(_: NoMemory) -> Fault {
        Fault::Memory
    }
}

impl From<AllocError> for Fault {
    fn from(_: AllocError) -> Fault {
        Fault::Memory
    }
}

impl<T: Drop> From<AllocFailed<T>> for Fault {
    fn from(_: AllocFailed<T>) -> Fault {
        Fault::Memory
    }
}

impl From<Refusal> for Fault {
    fn from(refusal: Refusal) -> Fault {
        Fault::Refused(refusal)
    }
}
