//! The tables of a specification once they are opened.
ghost use Rattle.std.specs.Prelude.{◌≡◌, ◌<◌, [], ◌∷◌, ◌++◌, length, slice_get, Some, OnOk};
ghost use Rattle.pf_asks.specs.Looking.{answer_of};
ghost use Rattle.pf_base.specs.Clauses.Unless.{Unless};
ghost use Rattle.pf_maps.specs.Clauses.Seen as seen;
ghost use Rattle.pf_maps.specs.Meanings.{meaning_of};

use crate::cdb_table::CdbTable;
use crate::net_table::NetTable;
use crate::walk::find_table;
use pf_asks::{Found, TableFault};
use pf_base::NoMemory;
use pf_listfile::ListFile;
use pf_pcre::PcreTable;
use pf_table::{Inline, StaticTable, TextTable};
use std::alloc::Global;
use std::marker::Model;

/// A table that was opened, or one that is made of the next ones.
#[derive(Drop)]
pub(crate) enum Node {
    Text(TextTable),
    Cdb(CdbTable),
    Cidr(NetTable),
    Pcre(PcreTable),
    Inline(Inline),
    Fixed(StaticTable),
    Fail,
    ListFile(ListFile),
    /// The number of its members, which are after it, each with its own.
    Union(u64),
    Pipe(u64),
}

/// The nodes of a table. A contract sees their list.
#[derive(Drop)]
pub(crate) struct Nodes {
    items: Vec<Node>,
}

impl Model for Nodes {
    ghost use Rattle.std.specs.Prelude.{List as Seq};
    ghost use Rattle.pf_maps.specs.declared.node.Node.{Node as Said};

    ghost Value = { Seq Said };

    ghost view = { λ nodes. nodes.items.items };
}

impl Nodes {
    pub(crate) fn new(alloc: Global) -> Nodes
        ensures { result ≡ [] }
    {
        Nodes {
            items: Vec::new(alloc),
        }
    }

    pub(crate) fn push(&mut self, node: Node) -> Result<(), NoMemory>
        ensures ok { OnOk result (self.new ≡ self.old ++ node ∷ []) }
    {
        self.items.push(node)?;
        Ok(())
    }

    pub(crate) fn as_slice(&self) -> &[Node]
        ensures { result.now ≡ self.now }
    {
        self.items.as_slice()
    }

    /// What the table has for a key.
    fn find(&mut self, alloc: Global, key: &[u8]) -> Result<Found, TableFault>
        ensures is { Unless result TableFault.NoMemory (λ r. r ≡ answer_of (meaning_of self.old) key.now) }
        ensures same { self.new ≡ self.old }
    {
        find_table(alloc, self.items.as_mut_slice(), key)
    }
}

/// The tables of texts, in their order. A contract sees the list of their nodes.
#[derive(Drop)]
pub(crate) struct Opened {
    tables: Vec<Nodes>,
}

impl Model for Opened {
    ghost use Rattle.std.specs.Prelude.{List as Seq};
    ghost use Rattle.pf_maps.specs.declared.node.Node.{Node as Said};

    ghost Value = { Seq (Seq Said) };

    ghost view = { λ opened. opened.tables.items };
}

impl Opened {
    pub(crate) fn new(alloc: Global) -> Opened
        ensures { result ≡ [] }
    {
        Opened {
            tables: Vec::new(alloc),
        }
    }

    pub(crate) fn push(&mut self, table: Nodes) -> Result<(), NoMemory>
        ensures ok { OnOk result (self.new ≡ self.old ++ table ∷ []) }
    {
        self.tables.push(table)?;
        Ok(())
    }

    pub(crate) fn len(&self) -> u64
        ensures { result ≡ length self.now }
    {
        self.tables.len() as u64
    }

    /// The nodes of the table at this place.
    pub(crate) fn at(&self, place: u64) -> &[Node]
        requires { place < length self.now }
        ensures { slice_get self.now place ≡ Some result.now }
    {
        self.tables[place as usize].as_slice()
    }

    /// What the table at this place has for a key.
    pub(crate) fn find(
        &mut self,
        alloc: Global,
        place: u64,
        key: &[u8],
    ) -> Result<Found, TableFault>
        requires { place < length self.old }
        ensures is { Unless result TableFault.NoMemory (λ r. r ≡ answer_of (seen.meaning_in (slice_get self.old place)) key.now) }
        ensures same { self.new ≡ self.old }
    {
        self.tables[place as usize].find(alloc, key)
    }
}
