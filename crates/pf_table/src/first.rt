//! A search through tables in turn.
ghost use Rattle.std.specs.Prelude.{◌≡◌, ◌≤◌, ◌+◌, length};
ghost use Rattle.pf_asks.specs.Clauses.Causes.{counted_if};
ghost use Rattle.pf_asks.specs.Clauses.Led.{TriesTables};
ghost use Rattle.pf_asks.specs.Looking.{CanFind, look_failed};
ghost use Rattle.pf_table.specs.First.{first_of};

use pf_asks::{Found, Lookup, TableFault};
use pf_base::{List, TableId};
use std::alloc::Global;

fn first_in<T: Lookup>(
    alloc: Global,
    tables: &mut T,
    ids: &[TableId],
    key: &[u8],
) -> Result<Found, TableFault>
    requires { CanFind (T.tables tables.old) ids.now }
    ensures asked { TriesTables (T.tables tables.old) (T.tables tables.new) TableFault.NoMemory (first_of ids.now key.now) result }
    ensures finds { (T.tables tables.new).finds ≤ (T.tables tables.old).finds + length ids.now }
    ensures cause { (T.tables tables.new).held.faults ≡ counted_if (look_failed result) (T.tables tables.old).held.faults }
{
    for id in ids {
        let found = tables.find(alloc, *id, key)?;
        match found {
            Found::Value(bytes) => return Ok(Found::Value(bytes)),
            Found::Absent => {}
        }
    }
    Ok(Found::Absent)
}

/// What the first of these tables answers that has a value for the key, or the fault of the first that fails before that.
/// `Failed` comes exactly where the count of faults goes up, by one. There is at most one lookup for each of `ids`.
pub fn find_first<T: Lookup>(
    alloc: Global,
    tables: &mut T,
    ids: &List<TableId>,
    key: &[u8],
) -> Result<Found, TableFault>
    requires { CanFind (T.tables tables.old) ids.now }
    ensures asked { TriesTables (T.tables tables.old) (T.tables tables.new) TableFault.NoMemory (first_of ids.now key.now) result }
    ensures finds { (T.tables tables.new).finds ≤ (T.tables tables.old).finds + length ids.now }
    ensures cause { (T.tables tables.new).held.faults ≡ counted_if (look_failed result) (T.tables tables.old).held.faults }
{
    first_in(alloc, tables, ids.as_slice(), key)
}
