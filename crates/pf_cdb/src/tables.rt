//! The tables of a file that is written.
ghost use Rattle.std.specs.Prelude.{◌≡◌, ◌+◌, ◌*◌, ◌≤◌, ◌++◌, [], length, map, OnOk, IfOk, flat_map, replicate};
ghost use Rattle.pf_cdb.specs.Clauses.Gathered.{slot_lists, with_slot};
ghost use Rattle.pf_cdb.specs.Written as spec;

use crate::layout::{SLOT_SIZE, Slot, TABLES, slots_for, table_of};
use crate::placing::fill;
use pf_base::{Bytes, NoMemory};
use std::alloc::Global;

// No slot in any table.
fn empty_buckets(alloc: Global) -> Result<Vec<Vec<Slot>>, NoMemory>
    ensures { IfOk result (λ buckets. slot_lists buckets.items ≡ replicate 256 []) }
{
    let mut buckets = Vec::new(alloc);
    for _ in 0..TABLES {
        buckets.push(Vec::new(alloc))?;
    }
    Ok(buckets)
}

// Adds a slot to those of its table.
fn add_slot(buckets: &mut Vec<Vec<Slot>>, slot: Slot) -> Result<(), NoMemory>
    requires { length buckets.old.items ≡ 256 }
    ensures { OnOk result (slot_lists buckets.new.items ≡ with_slot (slot_lists buckets.old.items) slot) }
{
    buckets[table_of(slot.hash) as usize].push(slot)?;
    Ok(())
}

// The slots, those of each table together.
#[tactic(auto, using(crate::proofs::BucketLaws::slots_more))]
fn sort_slots(alloc: Global, slots: &[Slot]) -> Result<Vec<Vec<Slot>>, NoMemory>
    ensures { IfOk result (λ buckets. slot_lists buckets.items ≡ spec.by_table slots.now) }
{
    let mut buckets = empty_buckets(alloc)?;
    for slot in slots {
        add_slot(&mut buckets, *slot)?;
    }
    Ok(buckets)
}

/// The slots of records, those of each table together. The vector that they were in is let go.
pub(crate) fn buckets_of(alloc: Global, slots: Vec<Slot>) -> Result<Vec<Vec<Slot>>, NoMemory>
    ensures { IfOk result (λ buckets. slot_lists buckets.items ≡ spec.by_table slots.items) }
{
    sort_slots(alloc, slots.as_slice())
}

/// Adds a number in four bytes.
pub(crate) fn add_word(file: &mut Bytes, n: u32) -> Result<(), NoMemory>
    ensures { OnOk result (file.new ≡ file.old ++ spec.bytes_of n) }
{
    file.extend(&n.to_le_bytes())
}

// Where a table ends that begins at `at`.
fn table_end(at: u64, slots: usize) -> u64
    requires { at + 8 * slots ≤ 67108864 }
    ensures { result ≡ at + 8 * slots }
{
    at + SLOT_SIZE as u64 * slots as u64
}

// Adds the place of a table and the number of its slots. The place of an empty one is where it would be.
fn add_place(file: &mut Bytes, at: u64, slots: usize) -> Result<(), NoMemory>
    requires { at + 8 * slots ≤ 67108864 }
    ensures { OnOk result (file.new ≡ file.old ++ (spec.bytes_of at ++ spec.bytes_of slots)) }
{
    add_word(file, at as u32)?;
    add_word(file, slots as u32)
}

/// Adds the header for the tables of some slots, of which the first is at `start`.
pub(crate) fn add_header(
    file: &mut Bytes,
    buckets: &[Vec<Slot>],
    start: u64,
) -> Result<(), NoMemory>
    requires { start + spec.tables_size (map spec.filled (slot_lists buckets.now)) ≤ 67108864 }
    ensures { OnOk result (file.new ≡ file.old ++ spec.header_bytes start (map spec.filled (slot_lists buckets.now))) }
{
    let mut at = start;
    for bucket in buckets {
        let slots = slots_for(bucket.len());
        let end = table_end(at, slots);
        add_place(file, at, slots)?;
        at = end;
    }
    Ok(())
}

// Adds a table.
fn add_table(file: &mut Bytes, slots: &[Slot]) -> Result<(), NoMemory>
    ensures { OnOk result (file.new ≡ file.old ++ spec.table_bytes slots.now) }
{
    for slot in slots {
        add_word(file, slot.hash)?;
        add_word(file, slot.at)?;
    }
    Ok(())
}

/// Adds the tables for some slots. One of them at a time is in memory.
pub(crate) fn add_tables(
    alloc: Global,
    file: &mut Bytes,
    buckets: &[Vec<Slot>],
) -> Result<(), NoMemory>
    ensures { OnOk result (file.new ≡ file.old ++ flat_map spec.table_bytes (map spec.filled (slot_lists buckets.now))) }
{
    for bucket in buckets {
        let table = fill(alloc, bucket.as_slice())?;
        add_table(file, table.as_slice())?;
    }
    Ok(())
}
