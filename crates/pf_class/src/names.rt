//! Sets of names.
ghost use Rattle.std.specs.Prelude.{◌≡◌, ◌==◌, [], length, OnOk, OnErr};
ghost use Rattle.pf_base.specs.Text.Names.{folded};
ghost use Rattle.pf_class.specs.Members as spec;

use indexmap::IndexSet;
use pf_base::{Bytes, NoMemory, fold};
use std::alloc::Global;
use std::marker::Model;

/// Names in small letters, each once.
#[derive(Drop)]
pub struct Names {
    names: IndexSet<Bytes>,
}

impl Model for Names {
    ghost use Rattle.std.specs.Prelude.{ℕ, List as Seq};

    ghost Value = { Seq (Seq ℕ) };

    ghost view = { λ names. names.names.keys };
}

impl Names {
    /// No names. It takes no memory.
    pub fn new(alloc: Global) -> Names
        ensures { result ≡ [] }
    {
        Names {
            names: IndexSet::new(alloc),
        }
    }

    // Adds a name that is in small letters.
    fn put(&mut self, name: Bytes) -> Result<(), NoMemory>
        ensures ok { OnOk result (self.new ≡ spec.with_name self.old name) }
        ensures err { OnErr result (self.new ≡ self.old) }
    {
        match self.names.insert_full(name) {
            Ok(_) => Ok(()),
            Err(_) => Err(NoMemory),
        }
    }

    /// Adds a name in small letters, where it is not there. Where there is no memory nothing changes.
    pub fn add(&mut self, alloc: Global, name: &[u8]) -> Result<(), NoMemory>
        ensures ok { OnOk result (self.new ≡ spec.with_name self.old (folded name.now)) }
        ensures err { OnErr result (self.new ≡ self.old) }
    {
        let name = fold(alloc, name)?;
        self.put(name)
    }

    /// Whether there are no names.
    pub fn is_empty(&self) -> bool
        ensures { result ≡ (length self.now == 0) }
    {
        self.names.len() == 0
    }

    /// Whether a name in small letters is there.
    pub fn has(&self, name: &Bytes) -> bool
        ensures { result ≡ spec.is_among self.now name.now }
    {
        self.names.contains(name)
    }
}
