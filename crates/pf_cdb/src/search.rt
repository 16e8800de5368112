//! The record of a key.
ghost use Rattle.std.specs.Prelude.{◌≡◌, ◌+◌, ◌≢◌, ◌≤◌, length, bytes_eq, find, IfSome, slice_range};
ghost use Rattle.std.specs.Option.{option_map};
ghost use Rattle.pf_cdb.specs.Clauses.Searching as searching;
ghost use Rattle.pf_cdb.specs.Hash.{hash_of};
ghost use Rattle.pf_cdb.specs.Held.{elements_of, has_key, held, value_span};
ghost use Rattle.pf_cdb.specs.Layout.{key_length};
ghost use Rattle.pf_cdb.specs.Sound.{IsSound};

use crate::hashing::hash;
use crate::layout::{Slot, key_at, slot_at, slots_in, table_of, tried_slot, value_span};
use crate::span::Span;

/// What a search for a key comes to at a slot.
#[derive(Clone, Copy, Debug, PartialEq, Eq)]
pub(crate) enum Look {
    /// An empty slot, where the search ends.
    Empty,
    /// A slot that has the key.
    Found,
    /// A slot of another key, after which the search goes on.
    Other,
}

// Whether a slot has a key.
fn has_key(file: &[u8], key: &[u8], hash: u32, slot: Slot) -> bool
    requires hashed { hash ≡ hash_of key.now }
    requires within { slot.at + 8 + key_length file.now slot.at ≤ length file.now }
    ensures { result ≡ has_key file.now key.now slot }
{
    slot.hash == hash && key_at(file, slot.at) == key
}

// What a search for a key comes to at a slot.
#[tactic(auto, unfolding(crate::specs::Clauses::Searching::look_at))]
fn look_at(file: &[u8], key: &[u8], hash: u32, slot: Slot) -> Look
    requires hashed { hash ≡ hash_of key.now }
    requires within { slot.at ≢ 0 → slot.at + 8 + key_length file.now slot.at ≤ length file.now }
    ensures { result ≡ searching.look_at file.now key.now slot }
{
    if slot.at == 0 {
        Look::Empty
    } else if has_key(file, key, hash, slot) {
        Look::Found
    } else {
        Look::Other
    }
}

/// The place of the record that is held for a key.
pub(crate) fn find_record(file: &[u8], key: &[u8]) -> Option<u32>
    requires { IsSound file.now }
    ensures { result ≡ held file.now key.now }
{
    let hash = hash(key);
    let table = table_of(hash);
    let slots = slots_in(file, table) as usize;
    for step in 0..slots {
        let i = tried_slot(hash, step, slots);
        let slot = slot_at(file, table, i as u32);
        match look_at(file, key, hash, slot) {
            Look::Empty => return None,
            Look::Found => return Some(slot.at),
            Look::Other => {}
        }
    }
    None
}

// Where the value of a key is.
fn find_span(file: &[u8], key: &[u8]) -> Option<Span>
    requires { IsSound file.now }
    ensures span { result ≡ option_map (value_span file.now) (held file.now key.now) }
    ensures within { IfSome result (λ span. (span.start ≤ span.end) × (span.end ≤ length file.now)) }
{
    match find_record(file, key) {
        Some(at) => Some(value_span(file, at)),
        None => None,
    }
}

/// Where the value of a key is in a file that `check` accepts; None where the file has no such key. It takes no memory.
pub fn find(file: &[u8], key: &[u8]) -> Option<Span>
    requires { IsSound file.now }
    ensures span { result ≡ option_map (value_span file.now) (held file.now key.now) }
    ensures value { option_map (λ span. slice_range file.now span.start span.end) result
        ≡ option_map (λ pair. pair.value) (find (λ pair. bytes_eq pair.key key.now) (elements_of file.now)) }
    ensures within { IfSome result (λ span. (span.start ≤ span.end) × (span.end ≤ length file.now)) }
{
    find_span(file, key)
}
