//! Names with what they stand for.
ghost use Rattle.std.specs.Prelude.{◌≡◌, ℕ, List as Seq, [], length, slice_get, IfOk, OnOk, OnErr};
ghost use Rattle.std.specs.Map.{keys_of};
ghost use Rattle.std.specs.Option.{option_copied};
ghost use Rattle.pf_base.specs.Clauses.Meant.{meant};
ghost use Rattle.pf_base.specs.Meanings.{Source};
ghost use Rattle.pf_base.specs.declared.meaning.Meaning.TheVariants.{Is};
ghost use Rattle.pf_expand.specs.Clauses.Meanings as spec;
ghost use Rattle.pf_expand.specs.Names.{with_source};

use crate::parse::tokens_of;
use crate::token::Token;
use indexmap::IndexMap;
use pf_base::{Bytes, List, Meaning, NoMemory};
use std::alloc::Global;
use std::marker::Model;

/// What is kept of what a name stands for: a text in its pieces, None where a dollar sign begins no form, or the domain in the
/// value of another name.
pub(crate) type Kept = Meaning<Option<List<Token>>, Bytes>;

/// Names with what they stand for: a text, or the domain in the value of another name. A name that was not set stands for
/// the empty text.
#[derive(Drop)]
pub struct Names {
    meanings: IndexMap<Bytes, Kept>,
}

impl Model for Names {
    ghost use Rattle.std.specs.Prelude.{ℕ, List as Seq};
    ghost use Rattle.pf_expand.specs.Clauses.Meanings.{Kept};

    ghost Value = { Seq (Seq ℕ × Kept) };

    ghost view = { λ names. names.meanings.entries };
}

// What is kept of what a name stands for.
fn kept(alloc: Global, meaning: Meaning<&[u8], &[u8]>) -> Result<Kept, NoMemory>
    ensures { IfOk result (λ k. k ≡ spec.kept (meant meaning.entry)) }
{
    match meaning {
        Meaning::Is(text) => Ok(Meaning::Is(tokens_of(alloc, text)?)),
        Meaning::DomainOf(host) => Ok(Meaning::DomainOf(Bytes::from_slice(alloc, host)?)),
    }
}

impl Names {
    /// Each name stands for the empty text. It takes no memory.
    pub fn new(alloc: Global) -> Names
        ensures { spec.AreNames result (λ name. Is []) }
    {
        Names {
            meanings: IndexMap::new(alloc),
        }
    }

    // Lets a name mean this and nothing that it meant before.
    fn put(&mut self, name: Bytes, meaning: Kept) -> Result<(), NoMemory>
        ensures ok { OnOk result (self.new ≡ spec.with_meaning self.old name meaning) }
        ensures err { OnErr result (self.new ≡ self.old) }
    {
        match self.meanings.insert(name, meaning) {
            Ok(_) => Ok(()),
            Err(_) => Err(NoMemory),
        }
    }

    /// Lets a name stand for this, and for nothing that it stood for before: a text, or the domain in the value of another name,
    /// which is what is past the first dot of it, `localdomain` where it has none (postconf(5), mydomain). Where there is no
    /// memory nothing changes.
    pub fn set(
        &mut self,
        alloc: Global,
        name: &[u8],
        meaning: Meaning<&[u8], &[u8]>,
    ) -> Result<(), NoMemory>
        ensures ok { OnOk result ((sources : Seq ℕ → Source) → spec.AreNames self.old sources → spec.AreNames self.new (with_source sources name.now (meant meaning.entry))) }
        ensures err { OnErr result (self.new ≡ self.old) }
    {
        let kept = kept(alloc, meaning)?;
        self.put(Bytes::from_slice(alloc, name)?, kept)
    }

    /// What a name means; None where it was not set.
    pub(crate) fn get(&self, name: &Bytes) -> Option<&Kept>
        ensures { option_copied result ≡ spec.meaning_in self.now name.now }
    {
        self.meanings.get(name)
    }

    /// The place of a name; None where it was not set.
    pub(crate) fn place(&self, name: &Bytes) -> Option<usize>
        ensures { result ≡ spec.place_in self.now name.now }
    {
        self.meanings.get_index_of(name)
    }

    /// How many names there are.
    pub(crate) fn len(&self) -> usize
        ensures { result ≡ length self.now }
    {
        self.meanings.len()
    }

    /// The name at a place.
    pub(crate) fn name_at(&self, place: usize) -> Option<&Bytes>
        ensures { option_copied result ≡ slice_get (keys_of self.now) place }
    {
        match self.meanings.get_index(place) {
            None => None,
            Some((name, _)) => Some(name),
        }
    }
}
