//! What the definitions say of a file, as a plain program: each number is read afresh.
use pf_cdb::{Damage, hash};

fn byte(file: &[u8], at: u64) -> u8 {
    match file.get(at as usize) {
        Some(byte) => *byte,
        None => 0,
    }
}

fn word(file: &[u8], at: u64) -> u32 {
    u32::from_le_bytes([
        byte(file, at),
        byte(file, at.saturating_add(1)),
        byte(file, at.saturating_add(2)),
        byte(file, at.saturating_add(3)),
    ])
}

fn slots_in(file: &[u8], table: u32) -> u32 {
    word(file, u64::from(table) * 8 + 4)
}

// Where a slot is.
fn slot_at(file: &[u8], table: u32, slot: u32) -> u64 {
    u64::from(word(file, u64::from(table) * 8)) + u64::from(slot) * 8
}

fn part(file: &[u8], at: u64, len: u64) -> &[u8] {
    match file.get(at as usize..at.saturating_add(len) as usize) {
        Some(part) => part,
        None => &[],
    }
}

fn key_at(file: &[u8], at: u32) -> &[u8] {
    part(
        file,
        u64::from(at) + 8,
        u64::from(word(file, u64::from(at))),
    )
}

fn value_at(file: &[u8], at: u32) -> &[u8] {
    let at = u64::from(at);
    part(
        file,
        at + 8 + u64::from(word(file, at)),
        u64::from(word(file, at + 4)),
    )
}

fn table_damage(file: &[u8], table: u32) -> Option<Damage> {
    let slots = slots_in(file, table);
    if slots > 0 && slot_at(file, table, slots) > file.len() as u64 {
        return Some(Damage::TableRange { table });
    }
    None
}

fn place_damage(file: &[u8], table: u32, slot: u32) -> Option<Damage> {
    let at = u64::from(word(file, slot_at(file, table, slot).saturating_add(4)));
    if at != 0 && (at < 2048 || at + 8 > file.len() as u64) {
        return Some(Damage::SlotRange { table, slot });
    }
    None
}

fn record_damage(file: &[u8], table: u32, slot: u32) -> Option<Damage> {
    let at = word(file, slot_at(file, table, slot).saturating_add(4));
    let place = u64::from(at);
    let lengths = u64::from(word(file, place)) + u64::from(word(file, place.saturating_add(4)));
    if at != 0 && place + 8 + lengths > file.len() as u64 {
        return Some(Damage::RecordRange { at });
    }
    None
}

fn hash_damage(file: &[u8], table: u32, slot: u32) -> Option<Damage> {
    let place = slot_at(file, table, slot);
    let at = word(file, place.saturating_add(4));
    let right = hash(key_at(file, at));
    if at != 0 && (word(file, place) != right || right % 256 != table) {
        return Some(Damage::WrongHash { table, slot });
    }
    None
}

fn slot_damage(file: &[u8], kind: u64, table: u32, slot: u32) -> Option<Damage> {
    match kind {
        0 => place_damage(file, table, slot),
        1 => record_damage(file, table, slot),
        _ => hash_damage(file, table, slot),
    }
}

fn first_in_slots(file: &[u8], kind: u64) -> Option<Damage> {
    for table in 0..256 {
        for slot in 0..slots_in(file, table) {
            let damage = slot_damage(file, kind, table, slot);
            if damage.is_some() {
                return damage;
            }
        }
    }
    None
}

fn first_in_tables(file: &[u8]) -> Option<Damage> {
    for table in 0..256 {
        let damage = table_damage(file, table);
        if damage.is_some() {
            return damage;
        }
    }
    None
}

/// What is wrong with a file.
pub fn first_damage(file: &[u8]) -> Option<Damage> {
    if file.len() < 2048 {
        return Some(Damage::Header);
    }
    let mut damage = first_in_tables(file);
    for kind in 0..3 {
        if damage.is_none() {
            damage = first_in_slots(file, kind);
        }
    }
    damage
}

/// The value of a key in a file without damage.
pub fn value<'a>(file: &'a [u8], key: &[u8]) -> Option<&'a [u8]> {
    let hash = hash(key);
    let table = hash % 256;
    let slots = slots_in(file, table);
    for step in 0..slots {
        let i = (u64::from(hash / 256) + u64::from(step)) % u64::from(slots);
        let slot = slot_at(file, table, i as u32);
        let at = word(file, slot.saturating_add(4));
        if at == 0 {
            return None;
        }
        if word(file, slot) == hash && key_at(file, at) == key {
            return Some(value_at(file, at));
        }
    }
    None
}
