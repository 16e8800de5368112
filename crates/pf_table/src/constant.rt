//! Tables that answer each key alike (DATABASE_README, static and fail).
ghost use Rattle.std.specs.Prelude.{◌≡◌};
ghost use Rattle.pf_table.specs.Tables as spec;

use crate::table::Table;
use pf_asks::{Found, Results, TableFault};
use pf_base::{Bytes, List, NoMemory};
use std::alloc::Global;
use std::marker::Model;

/// A table with one value for every key (DATABASE_README, static).
#[derive(Debug, Drop)]
pub struct StaticTable {
    value: Bytes,
}

impl Model for StaticTable {
    ghost use Rattle.std.specs.Prelude.{ℕ, List as Seq};

    ghost Value = { Seq ℕ };

    ghost view = { λ table. table.value };
}

impl StaticTable {
    /// The table with this value. It takes no memory.
    pub fn new(value: Bytes) -> StaticTable
        ensures { result ≡ value }
    {
        StaticTable { value }
    }
}

impl Table for StaticTable {
    ghost meaning = { spec.static_meaning };

    fn find(&self, alloc: Global, _: &[u8]) -> Result<Found, TableFault> {
        let value = self.value.copy(alloc)?;
        Ok(Found::Value(value))
    }

    fn partial_keys(&self) -> bool {
        true
    }

    fn results(&self, alloc: Global) -> Result<Results, NoMemory> {
        let mut values = List::new(alloc);
        values.push(self.value.copy(alloc)?)?;
        Ok(Results::Listed(values))
    }
}

/// A table that fails at every key (DATABASE_README, fail).
#[derive(Clone, Copy, Debug)]
pub struct FailTable;

impl FailTable {
    /// The table.
    pub fn new() -> FailTable {
        FailTable
    }
}

impl Table for FailTable {
    ghost meaning = { λ table. spec.fail_meaning };

    fn find(&self, _: Global, _: &[u8]) -> Result<Found, TableFault> {
        Err(TableFault::Fails)
    }

    fn partial_keys(&self) -> bool {
        true
    }

    fn results(&self, alloc: Global) -> Result<Results, NoMemory> {
        Ok(Results::Listed(List::new(alloc)))
    }
}
