//! Tables in cdb files that are asked for keys (cdb(5), postmap(1)).
ghost use Rattle.std.specs.Prelude.{◌≡◌, ◌++◌, flat_map, map, IfOk, OnOk};
ghost use Rattle.pf_base.specs.Clauses.Unless.{Unless};
ghost use Rattle.pf_cdb.specs.Asked.{listed_pair};
ghost use Rattle.pf_cdb.specs.Held.{elements_of};
ghost use Rattle.pf_base.specs.Clauses.Faults.{as_fault};
ghost use Rattle.pf_maps.specs.Cdb as cdb;
ghost use Rattle.pf_maps.specs.Cdb.{cdb_meaning};

use pf_asks::{Found, Results, TableFault};
use pf_base::{Bytes, Cause, ConfFault, List, NoMemory, Pair, refuse};
use pf_cdb::{CdbFile, Damage, ends_in_null, without_null};
use pf_table::{Table, kept_key};
use std::alloc::Global;
use std::marker::Model;

/// A cdb file without damage, and whether keys are folded before they are asked for.
#[derive(Drop)]
pub(crate) struct CdbTable {
    file: CdbFile,
    folds: bool,
}

impl Model for CdbTable {
    ghost use Rattle.pf_maps.specs.Cdb.{Cdb};

    ghost Value = { Cdb };

    ghost view = { λ table. record { folds = table.folds; file = table.file } };
}

// The words that a refusal names damage by.
#[tactic(auto, unfolding(crate::specs::Cdb::damage_text))]
fn damage_text(damage: Damage) -> &'static [u8]
    ensures { result.now ≡ cdb.damage_text damage }
{
    match damage {
        Damage::Header => b"cdb header",
        Damage::TableRange { table: _ } => b"cdb table",
        Damage::SlotRange { table: _, slot: _ } => b"cdb slot",
        Damage::RecordRange { at: _ } => b"cdb record",
        Damage::WrongHash { table: _, slot: _ } => b"cdb hash",
    }
}

// Adds the values that a pair may give.
fn add_values(alloc: Global, pair: &Pair, values: &mut List<Bytes>) -> Result<(), NoMemory>
    ensures { OnOk result (values.new ≡ values.old ++ cdb.values_of pair.now) }
{
    values.push(pair.value.copy(alloc)?)?;
    if ends_in_null(pair.key.as_slice()) {
        values.push(Bytes::from_slice(alloc, without_null(pair.value.as_slice()))?)?;
    }
    Ok(())
}

impl CdbTable {
    /// The table of a file with this name and these bytes, or the refusal of its damage.
    pub(crate) fn read(
        alloc: Global,
        name: &[u8],
        bytes: Bytes,
        folds: bool,
    ) -> Result<CdbTable, ConfFault>
        ensures { Unless result ConfFault.NoMemory (λ r. r ≡ as_fault (cdb.cdb_read name.now folds bytes)) }
    {
        match CdbFile::new(bytes) {
            Ok(file) => Ok(CdbTable { file, folds }),
            Err(damage) => Err(refuse(alloc, name, 0, Cause::C11, damage_text(damage))),
        }
    }

    // The values that its pairs may give.
    fn values(&self, alloc: Global) -> Result<List<Bytes>, NoMemory>
        ensures { IfOk result (λ values. values ≡ flat_map cdb.values_of (elements_of self.now.file)) }
    {
        let pairs = self.file.pairs(alloc)?;
        let mut values = List::new(alloc);
        for pair in pairs.as_slice() {
            add_values(alloc, pair, &mut values)?;
        }
        Ok(values)
    }

    /// Its pairs as they are listed.
    pub(crate) fn listed(&self, alloc: Global) -> Result<List<Pair>, NoMemory>
        ensures { IfOk result (λ pairs. pairs ≡ map listed_pair (elements_of self.now.file)) }
    {
        self.file.listed(alloc)
    }

    // The value of a key as it is kept.
    fn answer(&self, alloc: Global, key: &[u8]) -> Result<Found, NoMemory>
        ensures { IfOk result (λ found. found ≡ cdb.answered self.now key.now) }
    {
        let key = kept_key(alloc, self.folds, key)?;
        match self.file.answer(alloc, key.as_slice())? {
            None => Ok(Found::Absent),
            Some(value) => Ok(Found::Value(Bytes::from_slice(alloc, value)?)),
        }
    }
}

impl Table for CdbTable {
    ghost meaning = { cdb_meaning };

    fn find(&self, alloc: Global, key: &[u8]) -> Result<Found, TableFault> {
        match self.answer(alloc, key) {
            Ok(found) => Ok(found),
            Err(NoMemory) => Err(TableFault::NoMemory),
        }
    }

    fn partial_keys(&self) -> bool {
        true
    }

    fn results(&self, alloc: Global) -> Result<Results, NoMemory> {
        Ok(Results::Listed(self.values(alloc)?))
    }
}
