//! Opened tables.
ghost use Rattle.std.specs.Prelude.{◌≡◌, ◌<◌, length, slice_get, IfOk};
ghost use Rattle.pf_maps.specs.Clauses.Opened.{OpensWith};
ghost use Rattle.pf_maps.specs.Clauses.Seen as seen;
ghost use Rattle.pf_maps.specs.Opening as opening;

use crate::listing::pairs_of;
use crate::node::Opened;
use crate::opening::{OpenFault, open_tables};
use crate::walk::{has_partial_keys, results_of};
use pf_asks::{Found, Lookup, Results, TableFault};
use pf_base::{Files, List, NoMemory, Pair, Specs, TableId};
use pf_pcre::Patterns;
use std::alloc::Global;
use std::marker::Model;

/// Tables that were opened, under the places of their texts.
#[derive(Drop)]
pub struct Tables {
    tables: Opened,
    finds: u64,
}

impl Model for Tables {
    ghost use Rattle.pf_maps.specs.Clauses.Seen.{OpenTables};

    ghost Value = { OpenTables };

    ghost view = { λ tables. record { tables = tables.tables; finds = tables.finds } };
}

impl Tables {
    /// The tables and list files of these texts, in their order. A text that names none is refused as C9, with the file and the line
    /// of the setting that named it and the text as its name; a file that is not there as C10, and one of more than 64 MiB as C15,
    /// likewise with the file's name; a file's text as C1 or C11, with its own name and line. The first refusal counts. Where
    /// `folded`, letters count as the same in either case. `Failed` comes only where the count of faults of `files` rose by one,
    /// and has the name of the file that was to be read; what is refused before it comes first. Where a pattern is too large,
    /// the count of `patterns` rises by one, and the refusal is C11 `pattern size` at its line.
    pub fn open<F: Files>(
        alloc: Global,
        specs: &Specs,
        folded: bool,
        files: &mut F,
        patterns: &mut Patterns,
    ) -> Result<Tables, OpenFault>
        ensures { OpensWith (F.known files.old) (F.known files.new) patterns.old patterns.new (λ event all. seen.opened (opening.tables_opened event all folded specs.now)) result }
    {
        let tables = open_tables(alloc, specs, folded, files, patterns)?;
        Ok(Tables { tables, finds: 0 })
    }

    /// How many tables there are.
    pub fn len(&self) -> u64
        ensures { result ≡ length self.now.tables }
    {
        self.tables.len()
    }

    /// The pairs of a text table, an inline table or a cdb in their order, the keys as they are compared; of another table none
    /// (postmap(1), -s). It is no lookup.
    pub fn pairs(&self, alloc: Global, id: TableId) -> Result<List<Pair>, NoMemory>
        requires { id.0 < length self.now.tables }
        ensures { IfOk result (λ pairs. pairs ≡ seen.listed (slice_get self.now.tables id.0)) }
    {
        pairs_of(alloc, self.tables.at(id.0))
    }

    // Counts a lookup.
    fn count_find(&mut self)
        ensures { self.new ≡ seen.with_find self.old }
    {
        self.finds = self.finds.saturating_add(1);
    }
}

impl Lookup for Tables {
    ghost tables = { seen.seen };

    fn find(&mut self, alloc: Global, id: TableId, key: &[u8]) -> Result<Found, TableFault> {
        self.count_find();
        self.tables.find(alloc, id.0, key)
    }

    fn partial_keys(&self, id: TableId) -> bool {
        has_partial_keys(self.tables.at(id.0))
    }

    fn results(&mut self, alloc: Global, id: TableId) -> Result<Results, TableFault> {
        match results_of(alloc, self.tables.at(id.0)) {
            Ok(results) => Ok(results),
            Err(NoMemory) => Err(TableFault::NoMemory),
        }
    }
}
