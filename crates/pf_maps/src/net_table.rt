//! Tables of nets that are asked for keys (cidr_table(5)).
ghost use Rattle.pf_maps.specs.Meanings.{cidr_meaning};
ghost use Rattle.std.specs.Prelude.{◌≡◌, IfOk};

use pf_asks::{Found, Results, TableFault};
use pf_base::{Bytes, List, NoMemory};
use pf_cidr::{Addr, CidrTable};
use pf_table::Table;
use std::alloc::Global;
use std::marker::Model;

/// A table of nets.
#[derive(Drop)]
pub(crate) struct NetTable {
    table: CidrTable,
}

impl Model for NetTable {
    ghost use Rattle.pf_cidr.specs.Tables as cidr;

    ghost Value = { cidr.Table };

    ghost view = { λ nets. nets.table };
}

impl NetTable {
    pub(crate) fn new(table: CidrTable) -> NetTable
        ensures { result ≡ table }
    {
        NetTable { table }
    }

    // The results of its rules.
    fn values(&self, alloc: Global) -> Result<List<Bytes>, NoMemory>
        ensures { IfOk result (λ values. values ≡ self.now.results) }
    {
        let mut values = List::new(alloc);
        for rule in 0..self.table.len() {
            values.push(self.table.result(rule).copy(alloc)?)?;
        }
        Ok(values)
    }
}

impl Table for NetTable {
    ghost meaning = { cidr_meaning };

    fn find(&self, alloc: Global, key: &[u8]) -> Result<Found, TableFault> {
        let Some(addr) = Addr::read(key) else {
            return Ok(Found::Absent);
        };
        let Some(rule) = self.table.find(&addr) else {
            return Ok(Found::Absent);
        };
        match self.table.result(rule).copy(alloc) {
            Ok(value) => Ok(Found::Value(value)),
            Err(NoMemory) => Err(TableFault::NoMemory),
        }
    }

    fn partial_keys(&self) -> bool {
        false
    }

    fn results(&self, alloc: Global) -> Result<Results, NoMemory> {
        Ok(Results::Listed(self.values(alloc)?))
    }
}
