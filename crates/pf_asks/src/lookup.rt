//! Tables that are looked up.
ghost use Rattle.std.specs.Prelude.{◌≡◌, ◌≢◌, ◌<◌, true, Some, Err};
ghost use Rattle.pf_base.specs.Clauses.Unless.{Unless};
ghost use Rattle.pf_asks.specs.Clauses.Held.{Answered};
ghost use Rattle.pf_asks.specs.Looking.{HasAll, Tables, Values, listed, listing_failed, look_failed, looked_up, results_of, value_of};

use pf_base::{Bytes, List, NoMemory, TableId};
use std::alloc::Global;

/// What a table has for a key (DATABASE_README).
#[derive(Debug, PartialEq, Eq, Drop)]
pub enum Found {
    /// The value of the key.
    Value(Bytes),
    /// The table has no such key.
    Absent,
}

/// Which values a table may give.
#[derive(Debug, Drop)]
pub enum Results {
    /// These, in the order of its pairs.
    Listed(List<Bytes>),
    /// Any value.
    Anything,
}

/// Why a lookup has no answer.
#[derive(Clone, Copy, Debug, PartialEq, Eq)]
pub enum TableFault {
    /// The table fails at this key by what it means.
    Fails,
    /// The call failed from outside, and the count of faults rose.
    Failed,
    /// Out of memory.
    NoMemory,
}

impl From<NoMemory> for TableFault {
    ghost use Rattle.std.specs.Prelude.{◌≡◌};
    ghost use Rattle.pf_asks.specs.declared.lookup.TableFault.TheVariants.{NoMemory};

    ghost from_gives = { λ _ fault. fault ≡ NoMemory };

    fn from(_: NoMemory) -> TableFault {
        TableFault::NoMemory
    }
}

/// Tables under their places, from 0.
pub trait Lookup {
    /// What the tables mean, how often a call has failed, how many lookups there were, how many tables there are, which of
    /// them have partial keys, and whether they are as they were when they were opened.
    ghost tables: { Self → Tables };

    /// The value of a key. Each lookup is counted. `Fails` comes only where the table means that; `Failed` exactly where the
    /// count of faults goes up, by one.
    fn find(&mut self, alloc: Global, id: TableId, key: &[u8]) -> Result<Found, TableFault>
        requires sound { (tables self.old).sound ≡ true }
        requires there { id.0 < (tables self.old).count }
        ensures stays { tables self.new ≡ looked_up result (tables self.old) }
        ensures answered { Unless result TableFault.NoMemory (Answered look_failed (tables self.old).held.content (value_of id.0 key.now)) };

    /// Whether a table is asked for parts of a key too, such as the domain of an address (access(5)). It is no lookup.
    fn partial_keys(&self, id: TableId) -> bool
        requires sound { (tables self.now).sound ≡ true }
        requires there { id.0 < (tables self.now).count }
        ensures is { result ≡ (tables self.now).partial id.0 }
        ensures known { (values : Values) → (tables self.now).held.content ≡ Some values → result ≡ (values id.0).partial_keys };

    /// Which values a table may give; it gives no other one. It is no lookup. `Failed` comes exactly
    /// where the count of faults goes up, by one, and `Fails` never.
    fn results(&mut self, alloc: Global, id: TableId) -> Result<Results, TableFault>
        requires sound { (tables self.old).sound ≡ true }
        requires there { id.0 < (tables self.old).count }
        ensures stays { tables self.new ≡ listed result (tables self.old) }
        ensures works { result ≢ Err TableFault.Fails }
        ensures answered { Unless result TableFault.NoMemory (Answered listing_failed (tables self.old).held.content (results_of id.0)) }
        ensures all { (values : Values) → (tables self.old).held.content ≡ Some values → HasAll (values id.0) };
}
