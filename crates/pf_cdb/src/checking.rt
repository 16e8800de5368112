//! Whether a file is damaged.
ghost use Rattle.std.specs.Prelude.{◌≡◌, ◌+◌, ◌*◌, ◌<◌, ◌≤◌, ◌≢◌, true, length, OnOk, None};
ghost use Rattle.std.specs.Result.{result_err};
ghost use Rattle.pf_cdb.specs.Damaged as spec;
ghost use Rattle.pf_cdb.specs.Layout.{key_length, slot_of, slots_in, table_at, value_length};
ghost use Rattle.pf_cdb.specs.Clauses.Readable.{HasTables, IsReadable, IsTableWhole};
ghost use Rattle.pf_cdb.specs.Clauses.Readable as readable;
ghost use Rattle.pf_cdb.specs.Sound.{IsSound};

use crate::damage::{Damage, Kind};
use crate::hashing::hash;
use crate::layout::{
    HEADER_SIZE, LENGTHS_SIZE, SLOT_SIZE, Slot, TABLES, key_at, slot_at, slots_in, table_at, word,
};

// Whether the slots of a table end after the file.
#[tactic(auto, unfolding(crate::specs::Damaged::is_table_out))]
fn is_table_out(file: &[u8], table: u32) -> bool
    requires header { 2048 ≤ length file.now }
    requires table { table < 256 }
    ensures { result ≡ spec.is_table_out file.now table }
{
    let slots = slots_in(file, table) as usize;
    slots > 0 && table_at(file, table) as usize + SLOT_SIZE * slots > file.len()
}

// Whether a slot names a place where no record can be.
#[tactic(auto, unfolding(crate::specs::Damaged::is_slot_out))]
fn is_slot_out(file: &[u8], slot: Slot) -> bool
    ensures { result ≡ spec.is_slot_out file.now slot }
{
    let at = slot.at as usize;
    at != 0 && (at < HEADER_SIZE || at + LENGTHS_SIZE > file.len())
}

// Whether the key or the value that a slot names ends after the file.
#[tactic(auto, unfolding(crate::specs::Damaged::is_record_out))]
fn is_record_out(file: &[u8], slot: Slot) -> bool
    requires { slot.at ≢ 0 → slot.at + 8 ≤ length file.now }
    ensures { result ≡ spec.is_record_out file.now slot }
{
    if slot.at == 0 {
        return false;
    }
    let at = slot.at as usize;
    at + LENGTHS_SIZE + word(file, at) as usize + word(file, at + 4) as usize > file.len()
}

// Whether the key that a slot names has another hash, or one of another table.
#[tactic(auto, unfolding(crate::specs::Damaged::is_hash_wrong))]
fn is_hash_wrong(file: &[u8], table: u32, slot: Slot) -> bool
    requires { slot.at ≢ 0 → slot.at + 8 + key_length file.now slot.at ≤ length file.now }
    ensures { result ≡ spec.is_hash_wrong file.now table slot }
{
    if slot.at == 0 {
        return false;
    }
    let hash = hash(key_at(file, slot.at));
    !(hash == slot.hash && hash % TABLES == table)
}

// What is wrong with a table.
#[tactic(auto, unfolding(crate::specs::Damaged::table_damage))]
fn table_damage(file: &[u8], table: u32) -> Option<Damage>
    requires header { 2048 ≤ length file.now }
    requires table { table < 256 }
    ensures { result ≡ spec.table_damage file.now table }
{
    if is_table_out(file, table) {
        Some(Damage::TableRange { table })
    } else {
        None
    }
}

// What is wrong with a slot, where one kind of damage is looked for.
#[tactic(auto, unfolding(crate::specs::Damaged::slot_damage))]
fn slot_damage(kind: Kind, file: &[u8], table: u32, i: u32) -> Option<Damage>
    requires tables { HasTables file.now }
    requires readable { IsReadable kind file.now }
    requires table { table < 256 }
    requires slot { i < slots_in file.now table }
    ensures { result ≡ spec.slot_damage kind file.now table i }
{
    let slot = slot_at(file, table, i);
    match kind {
        Kind::Slots if is_slot_out(file, slot) => Some(Damage::SlotRange { table, slot: i }),
        Kind::Records if is_record_out(file, slot) => Some(Damage::RecordRange { at: slot.at }),
        Kind::Hashes if is_hash_wrong(file, table, slot) => {
            Some(Damage::WrongHash { table, slot: i })
        }
        _ => None,
    }
}

// The first damaged table.
fn first_in_tables(file: &[u8]) -> Option<Damage>
    requires { 2048 ≤ length file.now }
    ensures { result ≡ spec.first_in_tables file.now }
{
    for table in 0..TABLES {
        let damage = table_damage(file, table);
        if damage.is_some() {
            return damage;
        }
    }
    None
}

// The first damaged slot of a table.
fn first_in_table(kind: Kind, file: &[u8], table: u32) -> Option<Damage>
    requires tables { HasTables file.now }
    requires readable { IsReadable kind file.now }
    requires table { table < 256 }
    ensures { result ≡ spec.first_below (slots_in file.now table) (spec.slot_damage kind file.now table) }
{
    for i in 0..slots_in(file, table) {
        let damage = slot_damage(kind, file, table, i);
        if damage.is_some() {
            return damage;
        }
    }
    None
}

// The first damaged slot of the tables in turn.
fn first_in_slots(kind: Kind, file: &[u8]) -> Option<Damage>
    requires tables { HasTables file.now }
    requires readable { IsReadable kind file.now }
    ensures { result ≡ spec.first_in_slots kind file.now }
{
    for table in 0..TABLES {
        let damage = first_in_table(kind, file, table);
        if damage.is_some() {
            return damage;
        }
    }
    None
}

// Whether a slot is damaged, in whatever kind.
#[tactic(auto, unfolding(crate::specs::Clauses::Readable::is_damaged))]
fn is_damaged(file: &[u8], table: u32, slot: Slot) -> bool
    ensures { result ≡ readable.is_damaged file.now table slot }
{
    if is_slot_out(file, slot) {
        return true;
    }
    is_record_out(file, slot) || is_hash_wrong(file, table, slot)
}

// Whether no slot of a table is damaged.
fn is_table_whole(file: &[u8], table: u32) -> bool
    requires tables { HasTables file.now }
    requires table { table < 256 }
    ensures { result ≡ true → IsTableWhole file.now table }
{
    for i in 0..slots_in(file, table) {
        if is_damaged(file, table, slot_at(file, table, i)) {
            return false;
        }
    }
    true
}

// Whether no slot of any table is damaged.
fn are_tables_whole(file: &[u8]) -> bool
    requires { HasTables file.now }
    ensures { result ≡ true → IsSound file.now }
{
    for table in 0..TABLES {
        if !is_table_whole(file, table) {
            return false;
        }
    }
    true
}

// The first damage of the slots.
fn first_of_slots(file: &[u8]) -> Result<(), Damage>
    requires { HasTables file.now }
    ensures damage { result_err result ≡ spec.first_of_slots file.now }
    ensures sound { OnOk result (IsSound file.now) }
{
    if let Some(damage) = first_in_slots(Kind::Slots, file) {
        return Err(damage);
    }
    if let Some(damage) = first_in_slots(Kind::Records, file) {
        return Err(damage);
    }
    if let Some(damage) = first_in_slots(Kind::Hashes, file) {
        return Err(damage);
    }
    Ok(())
}

/// Whether a file is a whole cdb file: each place in it but that of an empty table lies within
/// it, and each slot that is used holds the hash of its key (cdb(5)).
/// The five kinds of damage are looked for in their order, each in the whole file, in the tables and their slots in turn,
/// and the first is answered. A file without damage is gone through once. It takes no memory.
pub fn check(file: &[u8]) -> Result<(), Damage>
    ensures damage { result_err result ≡ spec.first_damage file.now }
    ensures sound { OnOk result (IsSound file.now) }
{
    if file.len() < HEADER_SIZE {
        return Err(Damage::Header);
    }
    if let Some(damage) = first_in_tables(file) {
        return Err(damage);
    }
    if are_tables_whole(file) {
        return Ok(());
    }
    first_of_slots(file)
}
