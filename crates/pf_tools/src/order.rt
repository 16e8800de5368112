//! Names in the order of their bytes.
ghost use Rattle.std.specs.Prelude.{◌≡◌, [], map, IfOk, OnOk};
ghost use Rattle.pf_tools.specs.Clauses.Ordering.{with_name};

use pf_base::{Bytes, List, NoMemory};
use std::alloc::{AllocError, Global};
use std::collections::BTreeSet;
use std::marker::Model;

/// Names in the order of their bytes, each once. A contract sees their list.
#[derive(Drop)]
pub(crate) struct Ordered {
    names: BTreeSet<Vec<u8>>,
}

impl Model for Ordered {
    ghost use Rattle.std.specs.Prelude.{ℕ, List as Seq, map};

    ghost Value = { Seq (Seq ℕ) };

    ghost view = { λ ordered. map (λ name. name.items) ordered.names.keys };
}

// The names of a set.
fn names_in(alloc: Global, names: BTreeSet<Vec<u8>>) -> Result<Vec<Vec<u8>>, AllocError>
    ensures { IfOk result (λ all. all.items ≡ names.keys) }
{
    names.into_iter().collect(alloc)
}

// A list of these.
fn list_of(alloc: Global, names: &[Vec<u8>]) -> Result<List<Bytes>, NoMemory>
    ensures { IfOk result (λ list. list ≡ map (λ name. name.items) names.now) }
{
    let mut list = List::new(alloc);
    for name in names {
        list.push(Bytes::from_slice(alloc, name.as_slice())?)?;
    }
    Ok(list)
}

impl Ordered {
    /// No names. It takes no memory.
    pub(crate) fn new(alloc: Global) -> Ordered
        ensures { result ≡ [] }
    {
        Ordered {
            names: BTreeSet::new(alloc),
        }
    }

    // Puts a name in its place, unless it is there.
    fn put(&mut self, name: Vec<u8>) -> Result<(), NoMemory>
        ensures { OnOk result (self.new ≡ with_name self.old name.items) }
    {
        let Ok(_) = self.names.insert(name) else {
            return Err(NoMemory);
        };
        Ok(())
    }

    /// Puts a name in its place, unless it is there.
    pub(crate) fn add(&mut self, alloc: Global, name: &[u8]) -> Result<(), NoMemory>
        ensures { OnOk result (self.new ≡ with_name self.old name.now) }
    {
        let name = Vec::from_slice(alloc, name)?;
        self.put(name)
    }

    /// The list of the names.
    pub(crate) fn into_list(self, alloc: Global) -> Result<List<Bytes>, NoMemory>
        ensures { IfOk result (λ list. list ≡ self) }
    {
        let names = names_in(alloc, self.names)?;
        list_of(alloc, names.as_slice())
    }
}
