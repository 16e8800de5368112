//! A file that is kept to be asked.
ghost use Rattle.std.specs.Prelude.{◌≡◌, IfOk, map, option_copied};
ghost use Rattle.std.specs.Result.{result_err};
ghost use Rattle.pf_cdb.specs.Asked as asked;
ghost use Rattle.pf_cdb.specs.Damaged.{first_damage};
ghost use Rattle.pf_cdb.specs.Held.{elements_of};

use crate::checking::check;
use crate::damage::Damage;
use crate::listing::elements;
use crate::search::find;
use pf_base::{Bytes, List, NoMemory, Pair};
use std::alloc::Global;
use std::marker::Model;

/// The bytes of a cdb file without damage. A contract sees the bytes.
#[derive(Debug, Drop)]
pub struct CdbFile {
    bytes: Bytes,
}

impl Model for CdbFile {
    ghost use Rattle.std.specs.Prelude.{ℕ, List as Seq};
    ghost use Rattle.pf_cdb.specs.Sound.{IsSound};

    ghost Value = { Seq ℕ };

    ghost view = { λ file. file.bytes };

    ghost invariant = { λ file. IsSound file.bytes };
}

/// Whether a null byte is at the end of a text.
#[tactic(auto, unfolding(crate::specs::Asked::ends_in_null))]
pub fn ends_in_null(text: &[u8]) -> bool
    ensures { result ≡ asked.ends_in_null text.now }
{
    text.len() > 0 && text[text.len() - 1] == 0
}

/// A text without the null byte at its end, if it has one there.
#[tactic(auto, unfolding(crate::specs::Asked::without_null))]
pub fn without_null(text: &[u8]) -> &[u8]
    ensures { result.now ≡ asked.without_null text.now }
{
    if ends_in_null(text) {
        &text[..text.len() - 1]
    } else {
        text
    }
}

fn pair_of(alloc: Global, key: &[u8], value: &[u8]) -> Result<Pair, NoMemory>
    ensures { IfOk result (λ pair. pair ≡ record { key = key.now; value = value.now }) }
{
    Ok(Pair {
        key: Bytes::from_slice(alloc, key)?,
        value: Bytes::from_slice(alloc, value)?,
    })
}

// A pair as it is listed.
#[tactic(auto, unfolding(crate::specs::Asked::listed_pair))]
fn listed_pair(alloc: Global, pair: &Pair) -> Result<Pair, NoMemory>
    ensures { IfOk result (λ listed. listed ≡ asked.listed_pair pair.now) }
{
    let key = pair.key.as_slice();
    let value = pair.value.as_slice();
    if ends_in_null(key) && ends_in_null(value) {
        pair_of(alloc, without_null(key), without_null(value))
    } else {
        pair_of(alloc, key, value)
    }
}

impl CdbFile {
    /// Keeps the bytes of a file; what is wrong with them where they are damaged.
    pub fn new(bytes: Bytes) -> Result<CdbFile, Damage>
        ensures damage { result_err result ≡ first_damage bytes }
        ensures same { IfOk result (λ file. file ≡ bytes) }
    {
        check(bytes.as_slice())?;
        Ok(CdbFile { bytes })
    }

    /// The value of a key; None where the file has no such key. It takes no memory.
    pub fn value(&self, key: &[u8]) -> Option<&[u8]>
        ensures { option_copied result ≡ asked.value_of (elements_of self.now) key.now }
    {
        let file = self.bytes.as_slice();
        match find(file, key) {
            Some(span) => Some(&file[span.start as usize..span.end as usize]),
            None => None,
        }
    }

    /// The value of a key, else that of the key with a null byte after it, less the null byte after the value (postmap(1), -N and -n).
    #[tactic(auto, unfolding(crate::specs::Asked::answer_of))]
    pub fn answer(&self, alloc: Global, key: &[u8]) -> Result<Option<&[u8]>, NoMemory>
        ensures { IfOk result (λ answer. option_copied answer ≡ asked.answer_of (elements_of self.now) key.now) }
    {
        if let Some(value) = self.value(key) {
            return Ok(Some(value));
        }
        let mut with_null = Bytes::from_slice(alloc, key)?;
        with_null.push(0)?;
        match self.value(with_null.as_slice()) {
            Some(value) => Ok(Some(without_null(value))),
            None => Ok(None),
        }
    }

    /// Its pairs, in the order of their records.
    pub fn pairs(&self, alloc: Global) -> Result<List<Pair>, NoMemory>
        ensures { IfOk result (λ pairs. pairs ≡ elements_of self.now) }
    {
        elements(alloc, self.bytes.as_slice())
    }
    /// Its pairs as they are listed, in the order of their records: without the null bytes after a key and its value, where
    /// both have one.
    pub fn listed(&self, alloc: Global) -> Result<List<Pair>, NoMemory>
        ensures { IfOk result (λ pairs. pairs ≡ map asked.listed_pair (elements_of self.now)) }
    {
        let pairs = self.pairs(alloc)?;
        let mut listed = List::new(alloc);
        for pair in pairs.as_slice() {
            listed.push(listed_pair(alloc, pair)?)?;
        }
        Ok(listed)
    }
}
