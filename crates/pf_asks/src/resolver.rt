//! A resolver of names (RFC 1034, 5).
ghost use Rattle.pf_base.specs.Clauses.Unless.{Unless};
ghost use Rattle.pf_asks.specs.Clauses.Held.{Answered, Held, called};
ghost use Rattle.pf_asks.specs.Resolving.{HasValues, answer_of, ask_failed};
ghost use Rattle.pf_asks.specs.declared.resolver.Row.{Row};
ghost use Rattle.std.specs.Prelude.{◌≡◌, List as Seq, IfOk};

use pf_base::{Bytes, List, NoMemory};
use std::alloc::Global;

/// The kind of a resource record (RFC 1035, 3.2.2; RFC 3596, 2.1).
#[derive(Clone, Copy, Debug, PartialEq, Eq)]
pub enum Kind {
    A,
    Aaaa,
    Mx,
    Ptr,
}

/// What a resolver answers.
#[derive(Debug, Drop)]
pub enum Answer {
    /// The values, at least one.
    Found(List<Bytes>),
    /// There is no such record.
    Missing,
    /// It cannot be said now.
    Again,
}

/// Why a resolver has no answer.
#[derive(Clone, Copy, Debug, PartialEq, Eq)]
pub enum AskFault {
    /// The resolver failed, and the count of faults rose.
    Failed,
    /// Out of memory.
    NoMemory,
}

impl From<NoMemory> for AskFault {
    ghost use Rattle.std.specs.Prelude.{◌≡◌};
    ghost use Rattle.pf_asks.specs.declared.resolver.AskFault.TheVariants.{NoMemory};

    ghost from_gives = { λ _ fault. fault ≡ NoMemory };

    fn from(_: NoMemory) -> AskFault {
        AskFault::NoMemory
    }
}

/// What a resolver means for a name and a kind.
#[derive(Debug, Drop)]
pub struct Row {
    pub kind: Kind,
    /// The name, in small letters.
    pub name: Bytes,
    pub answer: Answer,
}

/// A resolver of names.
pub trait Resolver {
    /// The rows that it means, and how often a question has failed.
    ghost held: { Self → Held (Seq Row) };

    /// The answer of the first row of this kind and name, a letter counting as the same in either case; `Missing` where
    /// there is none. `Failed` comes exactly where the count of faults goes up, by one.
    fn ask(&mut self, alloc: Global, name: &[u8], kind: Kind) -> Result<Answer, AskFault>
        ensures stays { held self.new ≡ called (ask_failed result) (held self.old) }
        ensures values { IfOk result HasValues }
        ensures answered { Unless result AskFault.NoMemory (Answered ask_failed (held self.old).content (answer_of name.now kind)) };
}
