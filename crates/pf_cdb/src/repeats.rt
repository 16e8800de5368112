//! Whether a key comes more than once in a file that is written.
ghost use Rattle.std.specs.Prelude.{◌≡◌, ◌+◌, ◌≢◌, ◌≤◌, length};
ghost use Rattle.std.specs.List.{All, list_all};
ghost use Rattle.pf_cdb.specs.Clauses.Gathered.{slot_lists};
ghost use Rattle.pf_cdb.specs.Clauses.Searching as searching;
ghost use Rattle.pf_cdb.specs.Clauses.Searching.{NamesRecord};
ghost use Rattle.pf_cdb.specs.Held as held;
ghost use Rattle.pf_cdb.specs.Layout.{key_at, key_length};
ghost use Rattle.pf_cdb.specs.Sound.{IsSound};

use crate::layout::{Slot, key_at, slot_at, slots_in, table_of, tried_slot};
use crate::search::Look;

// Whether a slot has the key of a record. Where it names that record, nothing of the record is read.
fn has_key_of(file: &[u8], own: Slot, slot: Slot) -> bool
    requires named { NamesRecord file.now own }
    requires within { slot.at + 8 + key_length file.now slot.at ≤ length file.now }
    ensures { result ≡ held.has_key file.now (key_at file.now own.at) slot }
{
    slot.hash == own.hash && (slot.at == own.at || key_at(file, slot.at) == key_at(file, own.at))
}

// What a search for the key of a record comes to at a slot.
#[tactic(auto, unfolding(crate::specs::Clauses::Searching::look_at))]
fn look_for(file: &[u8], own: Slot, slot: Slot) -> Look
    requires named { NamesRecord file.now own }
    requires within { slot.at ≢ 0 → slot.at + 8 + key_length file.now slot.at ≤ length file.now }
    ensures { result ≡ searching.look_at file.now (key_at file.now own.at) slot }
{
    if slot.at == 0 {
        Look::Empty
    } else if has_key_of(file, own, slot) {
        Look::Found
    } else {
        Look::Other
    }
}

// The place of the record that is held for the key of a record.
fn holder(file: &[u8], own: Slot) -> Option<u32>
    requires sound { IsSound file.now }
    requires named { NamesRecord file.now own }
    ensures { result ≡ held.held file.now (key_at file.now own.at) }
{
    let table = table_of(own.hash);
    let slots = slots_in(file, table) as usize;
    for step in 0..slots {
        let i = tried_slot(own.hash, step, slots);
        let slot = slot_at(file, table, i as u32);
        match look_for(file, own, slot) {
            Look::Empty => return None,
            Look::Found => return Some(slot.at),
            Look::Other => {}
        }
    }
    None
}

// Whether a record is held for its own key.
fn is_held(file: &[u8], own: Slot) -> bool
    requires sound { IsSound file.now }
    requires named { NamesRecord file.now own }
    ensures { result ≡ held.is_held file.now own.at }
{
    match holder(file, own) {
        Some(place) => place == own.at,
        None => false,
    }
}

// Whether the records of some slots are held.
fn are_held(file: &[u8], slots: &[Slot]) -> bool
    requires sound { IsSound file.now }
    requires named { All (NamesRecord file.now) slots.now }
    ensures { result ≡ list_all (λ slot. held.is_held file.now slot.at) slots.now }
{
    for slot in slots {
        if !is_held(file, *slot) {
            return false;
        }
    }
    true
}

/// Whether the records of the slots of all tables are held, each for its own key.
pub(crate) fn all_held(file: &[u8], buckets: &[Vec<Slot>]) -> bool
    requires sound { IsSound file.now }
    requires named { All (All (NamesRecord file.now)) (slot_lists buckets.now) }
    ensures { result ≡ list_all (λ slots. list_all (λ slot. held.is_held file.now slot.at) slots) (slot_lists buckets.now) }
{
    for bucket in buckets {
        if !are_held(file, bucket.as_slice()) {
            return false;
        }
    }
    true
}
