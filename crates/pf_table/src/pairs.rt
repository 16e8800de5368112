//! Pairs in the order of their keys, each key once.
ghost use Rattle.std.specs.Char.{to_ascii_lowercase};
ghost use Rattle.std.specs.List.{list_all};
ghost use Rattle.std.specs.Prelude.{◌≡◌, ◌==◌, ◌++◌, ◌∷◌, ◌+◌, ◌%◌, ◌<◌, ◌≤◌, [], None, Some, true, map, length, slice_get, slice_range, slice_set, replicate, IfOk, OnErr, OnOk};
ghost use Rattle.pf_base.specs.Clauses.Prefixes.{AddsPrefix};
ghost use Rattle.pf_base.specs.declared.pair.Pair.{Pair};
ghost use Rattle.pf_table.specs.Clauses.Keeping as keeping;
ghost use Rattle.pf_table.specs.Clauses.Keeping.{IsKept};
ghost use Rattle.pf_table.specs.Pairs as spec;
ghost use Rattle.pf_table.specs.Tables as tables;

use pf_asks::Found;
use pf_base::{Bytes, List, NoMemory, Pair, fold};
use std::alloc::Global;
use std::hash::{FoldHasher, Hasher};
use std::marker::Model;

/// Which pair counts of a key that comes more than once. It is in the place of the first one.
#[derive(Clone, Copy, Debug, PartialEq, Eq)]
pub enum Repeats {
    First,
    Last,
}

/// A key as a table keeps it: with small letters where it folds.
pub fn kept_key(alloc: Global, folds: bool, key: &[u8]) -> Result<Bytes, NoMemory>
    ensures { IfOk result (λ kept. kept ≡ tables.kept_key folds key.now) }
{
    if folds {
        fold(alloc, key)
    } else {
        Bytes::from_slice(alloc, key)
    }
}

// Whether folding leaves a key as it is.
fn is_small(key: &[u8]) -> bool
    ensures { result ≡ list_all (λ b. to_ascii_lowercase b == b) key.now }
{
    key.iter().all(|b| b.to_ascii_lowercase() == *b)
}

// Whether a table keeps a key as it is.
fn is_kept(folds: bool, key: &[u8]) -> bool
    ensures { result ≡ true → tables.kept_key folds key.now ≡ key.now }
{
    if folds { is_small(key) } else { true }
}

/// Where a pair is in the bytes of its table: its key from `key` on and its value from there up to before `end`.
/// `previous` is the number of places up to the one before it in its bucket, and 0 where there is none.
#[derive(Clone, Copy, Debug, PartialEq, Eq)]
pub(crate) struct Place {
    key: usize,
    value: usize,
    end: usize,
    previous: usize,
}

fn hash(key: &[u8]) -> u64
    ensures { result ≡ keeping.hash_of key.now }
{
    let mut hasher = FoldHasher::default();
    hasher.write(key);
    hasher.finish()
}

// The bucket of the keys that have a hash.
fn bucket(hash: u64, buckets: usize) -> usize
    requires { 0 < buckets }
    ensures within { result < buckets }
    ensures is { result ≡ hash % buckets }
{
    (hash % buckets as u64) as usize
}

fn place_at(places: &[Place], i: usize) -> Place
    requires { i < length places.now }
    ensures { slice_get places.now i ≡ Some result }
{
    places[i]
}

// The bytes between two places.
fn part(bytes: &[u8], start: usize, end: usize) -> &[u8]
    requires order { start ≤ end }
    requires within { end ≤ length bytes.now }
    ensures { result.now ≡ slice_range bytes.now start end }
{
    &bytes[start..end]
}

// Which pair has a key of this hash.
fn index_in(bytes: &[u8], places: &[Place], heads: &[usize], hash: u64, key: &[u8]) -> Option<usize>
    requires kept { IsKept bytes.now places.now heads.now }
    requires hashed { hash ≡ keeping.hash_of key.now }
    ensures { result ≡ keeping.index_of key.now (keeping.keys_of (keeping.pairs_at bytes.now places.now)) }
{
    let mut up_to = heads[bucket(hash, heads.len())];
    while up_to > 0 {
        let place = place_at(places, up_to - 1);
        if part(bytes, place.key, place.value) == key {
            return Some(up_to - 1);
        }
        up_to = place.previous;
    }
    None
}

// Adds a pair to the bytes; its place, where this is the number of those up to the one before it in its bucket.
fn add_bytes(
    bytes: &mut Vec<u8>,
    key: &[u8],
    value: &[u8],
    previous: usize,
) -> Result<Place, NoMemory>
    ensures bytes { OnOk result (bytes.new.items ≡ bytes.old.items ++ (key.now ++ value.now)) }
    ensures place { IfOk result (λ place. place ≡ record {
      key = length bytes.old.items;
      value = length bytes.old.items + length key.now;
      end = length bytes.old.items + length key.now + length value.now;
      previous = previous;
    }) }
    ensures err { OnErr result (AddsPrefix bytes.old.items bytes.new.items (key.now ++ value.now)) }
{
    let start = bytes.len();
    bytes.extend_from_slice(key)?;
    let middle = bytes.len();
    bytes.extend_from_slice(value)?;
    Ok(Place {
        key: start,
        value: middle,
        end: bytes.len(),
        previous,
    })
}

/// Pairs in the order in which their keys came first.
#[derive(Drop)]
pub(crate) struct Pairs {
    bytes: Vec<u8>,
    places: Vec<Place>,
    // for each bucket the number of places up to its last one
    heads: Vec<usize>,
}

impl Model for Pairs {
    ghost use Rattle.std.specs.Prelude.{List as Seq};
    ghost use Rattle.pf_base.specs.declared.pair.Pair.{Pair};
    ghost use Rattle.pf_table.specs.Clauses.Keeping.{IsKept, pairs_at};

    ghost Value = { Seq Pair };

    ghost view = { λ pairs. pairs_at pairs.bytes.items pairs.places.items };

    ghost invariant = { λ pairs. IsKept pairs.bytes.items pairs.places.items pairs.heads.items };
}

// As many buckets, each without a key.
fn empty_heads(alloc: Global, buckets: usize) -> Result<Vec<usize>, NoMemory>
    ensures { IfOk result (λ heads. heads.items ≡ replicate buckets 0) }
{
    let mut heads = Vec::new(alloc);
    heads.resize(buckets, 0)?;
    Ok(heads)
}

impl Pairs {
    /// No pairs, with room for as many pairs and bytes of them; there is room for more.
    pub(crate) fn new(alloc: Global, pairs: usize, bytes: usize) -> Result<Pairs, NoMemory>
        ensures { IfOk result (λ pairs. pairs ≡ []) }
    {
        Ok(Pairs {
            bytes: Vec::with_capacity(alloc, bytes)?,
            places: Vec::with_capacity(alloc, pairs)?,
            heads: empty_heads(alloc, pairs.max(1))?,
        })
    }

    // Which pair has a key of this hash.
    fn index(&self, hash: u64, key: &[u8]) -> Option<usize>
        requires { hash ≡ keeping.hash_of key.now }
        ensures { result ≡ keeping.index_of key.now (keeping.keys_of self.now) }
    {
        index_in(
            self.bytes.as_slice(),
            self.places.as_slice(),
            self.heads.as_slice(),
            hash,
            key,
        )
    }

    // Adds a pair whose key is new and has this hash.
    fn push(&mut self, hash: u64, key: &[u8], value: &[u8]) -> Result<(), NoMemory>
        requires hashed { hash ≡ keeping.hash_of key.now }
        requires new { keeping.index_of key.now (keeping.keys_of self.old) ≡ None }
        ensures { OnOk result (self.new ≡ self.old ++ record { key = key.now; value = value.now } ∷ []) }
    {
        let bucket = bucket(hash, self.heads.len());
        let previous = self.heads[bucket];
        let place = add_bytes(&mut self.bytes, key, value, previous)?;
        self.places.push(place)?;
        self.heads[bucket] = self.places.len();
        Ok(())
    }

    // Puts a pair in the place of the one of its key.
    fn replace(&mut self, i: usize, key: &[u8], value: &[u8]) -> Result<(), NoMemory>
        requires { keeping.index_of key.now (keeping.keys_of self.old) ≡ Some i }
        ensures { OnOk result (self.new ≡ slice_set self.old i (record { key = key.now; value = value.now })) }
    {
        let previous = place_at(self.places.as_slice(), i).previous;
        let place = add_bytes(&mut self.bytes, key, value, previous)?;
        self.places[i] = place;
        Ok(())
    }

    // Adds a pair whose key is that of the pair at `i`.
    fn put(&mut self, repeats: Repeats, i: usize, key: &[u8], value: &[u8]) -> Result<(), NoMemory>
        requires { keeping.index_of key.now (keeping.keys_of self.old) ≡ Some i }
        ensures { OnOk result (self.new ≡ spec.with_pair repeats self.old (record { key = key.now; value = value.now })) }
    {
        match repeats {
            Repeats::First => Ok(()),
            Repeats::Last => self.replace(i, key, value),
        }
    }

    /// Adds a pair; of one key the first counts, or the last in its place. Whether its key was there.
    pub(crate) fn add(
        &mut self,
        repeats: Repeats,
        key: &[u8],
        value: &[u8],
    ) -> Result<bool, NoMemory>
        ensures added { OnOk result (self.new ≡ spec.with_pair repeats self.old (record { key = key.now; value = value.now })) }
        ensures was { IfOk result (λ was. was ≡ spec.has_key self.old key.now) }
    {
        let hash = hash(key);
        match self.index(hash, key) {
            None => {
                self.push(hash, key, value)?;
                Ok(false)
            }
            Some(i) => {
                self.put(repeats, i, key, value)?;
                Ok(true)
            }
        }
    }

    /// How many pairs there are.
    pub(crate) fn len(&self) -> usize
        ensures { result ≡ length self.now }
    {
        self.places.len()
    }

    /// The key and the value of the pair at `i`, counted from 0.
    pub(crate) fn at(&self, i: usize) -> (&[u8], &[u8])
        requires { i < length self.now }
        ensures { slice_get self.now i ≡ Some (record { key = result.0.now; value = result.1.now }) }
    {
        let place = place_at(self.places.as_slice(), i);
        let bytes = self.bytes.as_slice();
        let key = part(bytes, place.key, place.value);
        let value = part(bytes, place.value, place.end);
        (key, value)
    }

    // What the pairs say of a key as they keep it.
    fn found(&self, alloc: Global, key: &[u8]) -> Result<Found, NoMemory>
        ensures { IfOk result (λ found. found ≡ tables.found_in self.now key.now) }
    {
        match self.index(hash(key), key) {
            None => Ok(Found::Absent),
            Some(i) => {
                let (_, value) = self.at(i);
                Ok(Found::Value(Bytes::from_slice(alloc, value)?))
            }
        }
    }

    /// What the pairs say of a key.
    pub(crate) fn find(&self, alloc: Global, folds: bool, key: &[u8]) -> Result<Found, NoMemory>
        ensures { IfOk result (λ found. found ≡ tables.found_in self.now (tables.kept_key folds key.now)) }
    {
        if is_kept(folds, key) {
            return self.found(alloc, key);
        }
        let key = kept_key(alloc, folds, key)?;
        self.found(alloc, key.as_slice())
    }

    // A copy of the pair at `i`.
    fn pair(&self, alloc: Global, i: usize) -> Result<Pair, NoMemory>
        requires { i < length self.now }
        ensures { IfOk result (λ pair. slice_get self.now i ≡ Some pair) }
    {
        let (key, value) = self.at(i);
        Ok(Pair {
            key: Bytes::from_slice(alloc, key)?,
            value: Bytes::from_slice(alloc, value)?,
        })
    }

    // A copy of the value of the pair at `i`.
    fn value(&self, alloc: Global, i: usize) -> Result<Bytes, NoMemory>
        requires { i < length self.now }
        ensures { IfOk result (λ value. slice_get (map (λ pair. pair.value) self.now) i ≡ Some value) }
    {
        let (_, value) = self.at(i);
        Bytes::from_slice(alloc, value)
    }

    /// All pairs.
    #[tactic(auto, using(crate::proofs::PlaceLemmas::take_pushed))]
    pub(crate) fn list(&self, alloc: Global) -> Result<List<Pair>, NoMemory>
        ensures { IfOk result (λ pairs. pairs ≡ self.now) }
    {
        let mut pairs = List::new(alloc);
        for i in 0..self.len() {
            pairs.push(self.pair(alloc, i)?)?;
        }
        Ok(pairs)
    }

    /// The values of all pairs.
    #[tactic(auto, using(crate::proofs::PlaceLemmas::take_pushed))]
    pub(crate) fn values(&self, alloc: Global) -> Result<List<Bytes>, NoMemory>
        ensures { IfOk result (λ values. values ≡ map (λ pair. pair.value) self.now) }
    {
        let mut values = List::new(alloc);
        for i in 0..self.len() {
            values.push(self.value(alloc, i)?)?;
        }
        Ok(values)
    }
}
