//! The pairs of a file.
ghost use Rattle.std.specs.Prelude.{◌≡◌, ◌+◌, ◌<◌, ◌≤◌, ◌++◌, length, OnOk, IfOk};
ghost use Rattle.pf_cdb.specs.Held as held;
ghost use Rattle.pf_cdb.specs.Held.{elements_of};
ghost use Rattle.pf_cdb.specs.Layout.{key_length, value_length};
ghost use Rattle.pf_cdb.specs.Layout as layout;
ghost use Rattle.pf_cdb.specs.Clauses.Listed as listed;
ghost use Rattle.pf_cdb.specs.Sound.{IsSound};

use crate::layout::{TABLES, key_at, slot_at, slots_in, value_span};
use crate::search::find_record;
use pf_base::{Bytes, List, NoMemory, Pair};
use std::alloc::Global;

// Whether the record at a place is held for its own key.
fn is_held(file: &[u8], at: u32) -> bool
    requires sound { IsSound file.now }
    requires within { at + 8 + key_length file.now at ≤ length file.now }
    ensures { result ≡ held.is_held file.now at }
{
    match find_record(file, key_at(file, at)) {
        Some(place) => place == at,
        None => false,
    }
}

// Whether a slot's place is that of a record that is held.
fn names_held(file: &[u8], table: u32, i: u32) -> bool
    requires sound { IsSound file.now }
    requires table { table < 256 }
    requires slot { i < layout.slots_in file.now table }
    ensures { result ≡ held.is_held file.now (layout.slot_of file.now table i).at }
{
    let at = slot_at(file, table, i).at;
    at != 0 && is_held(file, at)
}

// Adds the places of the records that are held and that the slots of a table name.
fn add_places(places: &mut Vec<u32>, file: &[u8], table: u32) -> Result<(), NoMemory>
    requires sound { IsSound file.now }
    requires table { table < 256 }
    ensures { OnOk result (places.new.items ≡ places.old.items ++ listed.held_in file.now table) }
{
    for i in 0..slots_in(file, table) {
        if names_held(file, table, i) {
            places.push(slot_at(file, table, i).at)?;
        }
    }
    Ok(())
}

// The places of the records that are held, in their order.
fn held_places(alloc: Global, file: &[u8]) -> Result<Vec<u32>, NoMemory>
    requires { IsSound file.now }
    ensures { IfOk result (λ places. places.items ≡ listed.held_places file.now) }
{
    let mut places = Vec::new(alloc);
    for table in 0..TABLES {
        add_places(&mut places, file, table)?;
    }
    places.sort_unstable();
    places.dedup();
    Ok(places)
}

// The key and the value of the record at a place.
fn pair_at(alloc: Global, file: &[u8], at: u32) -> Result<Pair, NoMemory>
    requires { at + 8 + key_length file.now at + value_length file.now at ≤ length file.now }
    ensures { IfOk result (λ pair. pair ≡ layout.pair_at file.now at) }
{
    let value = value_span(file, at);
    Ok(Pair {
        key: Bytes::from_slice(alloc, key_at(file, at))?,
        value: Bytes::from_slice(alloc, &file[value.start as usize..value.end as usize])?,
    })
}

/// The pairs that `find` can give of a file that `check` accepts, in the order of their records.
pub fn elements(alloc: Global, file: &[u8]) -> Result<List<Pair>, NoMemory>
    requires { IsSound file.now }
    ensures { IfOk result (λ pairs. pairs ≡ elements_of file.now) }
{
    let places = held_places(alloc, file)?;
    let mut pairs = List::new(alloc);
    for at in places.as_slice() {
        pairs.push(pair_at(alloc, file, *at)?)?;
    }
    Ok(pairs)
}
