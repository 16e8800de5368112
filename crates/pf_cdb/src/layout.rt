//! Where the parts of a file are.
ghost use Rattle.std.specs.Prelude.{◌≡◌, ◌+◌, ◌*◌, ◌/◌, ◌%◌, ◌<◌, ◌≤◌, length};
ghost use Rattle.pf_cdb.specs.Held as held;
ghost use Rattle.pf_cdb.specs.Layout as spec;

use crate::span::Span;

/// How many tables there are.
pub(crate) const TABLES: u32 = 256;

/// How many bytes the header has, a table in it, a record before its key, and a slot.
pub(crate) const HEADER_SIZE: usize = 2048;

pub(crate) const TABLE_SIZE: usize = 8;

pub(crate) const LENGTHS_SIZE: usize = 8;

pub(crate) const SLOT_SIZE: usize = 8;

/// A slot of a table: the hash of a key and the place of its record, which is 0 where the slot is empty.
#[derive(Clone, Copy, Debug, PartialEq, Eq)]
pub(crate) struct Slot {
    pub hash: u32,
    pub at: u32,
}

/// The table that the slots of a hash are in.
pub(crate) fn table_of(hash: u32) -> u32
    ensures table { result ≡ hash % 256 }
    ensures within { result < 256 }
{
    hash % TABLES
}

/// The slot, of so many, that a hash tries at a step, both counted from 0.
pub(crate) fn tried_slot(hash: u32, step: usize, slots: usize) -> usize
    requires step { step < 9223372036854775808 }
    requires some { 0 < slots }
    ensures slot { result ≡ (hash / 256 + step) % slots }
    ensures within { result < slots }
{
    ((hash / TABLES) as usize + step) % slots
}

/// How many slots a table is given for so many records.
pub(crate) fn slots_for(records: usize) -> usize
    requires { 2 * records < 18446744073709551616 }
    ensures { result ≡ 2 * records }
{
    2 * records
}

/// The number in four bytes, the least byte first.
pub(crate) fn word(file: &[u8], at: usize) -> u32
    requires { at + 4 ≤ length file.now }
    ensures { result ≡ spec.word file.now at }
{
    u32::from_le_bytes([file[at], file[at + 1], file[at + 2], file[at + 3]])
}

/// Where the slots of a table are.
pub(crate) fn table_at(file: &[u8], table: u32) -> u32
    requires header { 2048 ≤ length file.now }
    requires table { table < 256 }
    ensures { result ≡ spec.table_at file.now table }
{
    word(file, TABLE_SIZE * table as usize)
}

/// How many slots a table has.
pub(crate) fn slots_in(file: &[u8], table: u32) -> u32
    requires header { 2048 ≤ length file.now }
    requires table { table < 256 }
    ensures { result ≡ spec.slots_in file.now table }
{
    word(file, TABLE_SIZE * table as usize + 4)
}

/// A slot of a table, counted from 0.
pub(crate) fn slot_at(file: &[u8], table: u32, i: u32) -> Slot
    requires header { 2048 ≤ length file.now }
    requires table { table < 256 }
    requires within { spec.table_at file.now table + 8 * i + 8 ≤ length file.now }
    ensures { result ≡ spec.slot_of file.now table i }
{
    let at = table_at(file, table) as usize + SLOT_SIZE * i as usize;
    Slot {
        hash: word(file, at),
        at: word(file, at + 4),
    }
}

/// The key of the record at a place.
pub(crate) fn key_at(file: &[u8], at: u32) -> &[u8]
    requires { at + 8 + spec.key_length file.now at ≤ length file.now }
    ensures { result.now ≡ spec.key_at file.now at }
{
    let start = at as usize + LENGTHS_SIZE;
    let end = start + word(file, at as usize) as usize;
    &file[start..end]
}

/// Where the value of the record at a place is.
pub(crate) fn value_span(file: &[u8], at: u32) -> Span
    requires { at + 8 ≤ length file.now }
    ensures { result ≡ held.value_span file.now at }
{
    let at = at as usize;
    let start = at + LENGTHS_SIZE + word(file, at) as usize;
    Span {
        start: start as u64,
        end: start as u64 + word(file, at + 4) as u64,
    }
}
