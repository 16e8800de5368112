//! A table that is asked for keys.
ghost use Rattle.std.specs.Prelude.{◌≡◌, IfOk};
ghost use Rattle.pf_base.specs.Clauses.Unless.{Unless};
ghost use Rattle.pf_asks.specs.Looking.{HasAll, Meaning, answer_of};

use pf_asks::{Found, Results, TableFault};
use pf_base::NoMemory;
use std::alloc::Global;

/// A table (DATABASE_README).
pub trait Table {
    /// What it means: the value of each key, whether it has partial keys, and which values it may give.
    ghost meaning: { Self → Meaning };

    /// The value of a key. `Fails` comes only where the table means that at this key, and `Failed` never.
    fn find(&self, alloc: Global, key: &[u8]) -> Result<Found, TableFault>
        ensures { Unless result TableFault.NoMemory (λ r. r ≡ answer_of (meaning self.now) key.now) };

    /// Whether it is asked for parts of a key too, such as the domain of an address (access(5)).
    fn partial_keys(&self) -> bool
        ensures { result ≡ (meaning self.now).partial_keys };

    /// Which values it may give. It gives no other one, whatever the key.
    fn results(&self, alloc: Global) -> Result<Results, NoMemory>
        ensures listed { IfOk result (λ results. results ≡ (meaning self.now).results) }
        ensures all { HasAll (meaning self.now) };
}
