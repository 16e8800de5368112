//! Files that are written pair by pair.
ghost use Rattle.std.specs.Prelude.{◌≡◌, ◌+◌, ◌*◌, ◌<◌, ◌≤◌, ◌++◌, ℕ, List, true, false, [], ◌∷◌, length, map, IfOk, OnOk, None, Err, bytes_eq, find, replicate};
ghost use Rattle.pf_cdb.specs.Clauses.Adding.{IsPrefix, pairs_at};
ghost use Rattle.pf_cdb.specs.Clauses.Gathered.{slot_lists};
ghost use Rattle.pf_cdb.specs.Damaged.{first_damage};
ghost use Rattle.pf_cdb.specs.Held.{elements_of};
ghost use Rattle.pf_cdb.specs.Sound.{IsSound};
ghost use Rattle.pf_cdb.specs.Written as spec;

use crate::fault::WriteFault;
use crate::hashing::hash;
use crate::layout::{HEADER_SIZE, LENGTHS_SIZE, SLOT_SIZE, Slot};
use crate::repeats::all_held;
use crate::tables::{add_header, add_tables, add_word, buckets_of};
use pf_base::{Bytes, FILE_LIMIT, NoMemory};
use std::alloc::Global;
use std::marker::Model;

/// A file that was written, and whether a key comes more than once in its pairs.
#[derive(Debug, Drop)]
pub struct Written {
    pub bytes: Bytes,
    pub repeats: bool,
}

/// A cdb file to which pairs are added. A contract sees the pairs.
#[derive(Drop)]
pub struct Writer {
    // room for the header, and the records
    file: Bytes,
    // a slot for each record
    slots: Vec<Slot>,
}

impl Model for Writer {
    ghost use Rattle.std.specs.Prelude.{List as Seq};
    ghost use Rattle.pf_base.specs.declared.pair.Pair.{Pair};
    ghost use Rattle.pf_cdb.specs.Clauses.Adding.{IsPrefix, pairs_at};

    ghost Value = { Seq Pair };

    ghost view = { λ writer. pairs_at writer.file writer.slots.items };

    ghost invariant = { λ writer. IsPrefix writer.file writer.slots.items };
}

// Room for a header.
fn header_room(alloc: Global) -> Result<Bytes, NoMemory>
    ensures { IfOk result (λ file. file ≡ replicate 2048 0) }
{
    let mut file = Bytes::new(alloc);
    for _ in 0..HEADER_SIZE {
        file.push(0)?;
    }
    Ok(file)
}

// Whether a record that begins at `at`, after so many others, leaves room for the slots of all.
fn has_room(at: u64, records: usize, key: &[u8], value: &[u8]) -> bool
    requires { at + 16 * records ≤ 67108864 }
    ensures yes { result ≡ true → at + 16 * records + (8 + length key.now + length value.now + 16) ≤ 67108864 }
    ensures no { result ≡ false → 67108864 < at + 16 * records + (8 + length key.now + length value.now + 16) }
{
    let key = key.len() as u64;
    let value = value.len() as u64;
    let slots = 2 * SLOT_SIZE as u64 * (records as u64 + 1);
    key <= FILE_LIMIT
        && value <= FILE_LIMIT
        && at + LENGTHS_SIZE as u64 + key + value + slots <= FILE_LIMIT
}

// Adds a record.
fn add_record(file: &mut Bytes, key: &[u8], value: &[u8]) -> Result<(), NoMemory>
    requires { length key.now + length value.now ≤ 67108864 }
    ensures { OnOk result (file.new ≡ file.old ++ spec.record_bytes (record { key = key.now; value = value.now })) }
{
    add_word(file, key.len() as u32)?;
    add_word(file, value.len() as u32)?;
    file.extend(key)?;
    file.extend(value)
}

// Adds a slot after the others.
fn push_slot(slots: &mut Vec<Slot>, slot: Slot) -> Result<(), NoMemory>
    ensures { OnOk result (slots.new.items ≡ slots.old.items ++ slot ∷ []) }
{
    slots.push(slot)?;
    Ok(())
}

// Puts the header and the tables to the records. The slots, those of each table together, are answered too.
fn finished(
    alloc: Global,
    file: Bytes,
    slots: Vec<Slot>,
) -> Result<(Bytes, Vec<Vec<Slot>>), NoMemory>
    requires { IsPrefix file slots.items }
    ensures whole { IfOk result (λ made. made.0 ≡ spec.written (pairs_at file slots.items)) }
    ensures buckets { IfOk result (λ made. slot_lists made.1.items ≡ spec.by_table slots.items) }
{
    let buckets = buckets_of(alloc, slots)?;
    let mut header = Bytes::new(alloc);
    add_header(&mut header, buckets.as_slice(), file.len())?;
    let mut file = file;
    file.put_prefix(header.as_slice());
    add_tables(alloc, &mut file, buckets.as_slice())?;
    Ok((file, buckets))
}

impl Writer {
    /// A file without a pair.
    pub fn new(alloc: Global) -> Result<Writer, NoMemory>
        ensures { IfOk result (λ writer. writer ≡ []) }
    {
        let file = header_room(alloc)?;
        Ok(Writer {
            file,
            slots: Vec::new(alloc),
        })
    }

    /// Adds a pair. `TooLarge` comes exactly where the file would have more than `FILE_LIMIT` bytes with it. After a fault the
    /// writer is let go, with what was added.
    pub fn add(self, key: &[u8], value: &[u8]) -> Result<Writer, WriteFault>
        ensures added { IfOk result (λ more. more ≡ self ++ record { key = key.now; value = value.now } ∷ []) }
        ensures large { 67108864 < length (spec.written (self ++ record { key = key.now; value = value.now } ∷ [])) → result ≡ Err WriteFault.TooLarge }
        ensures exact { result ≡ Err WriteFault.TooLarge → 67108864 < length (spec.written (self ++ record { key = key.now; value = value.now } ∷ [])) }
    {
        let Writer {
            mut file,
            mut slots,
        } = self;
        let at = file.len();
        if !has_room(at, slots.len(), key, value) {
            return Err(WriteFault::TooLarge);
        }
        add_record(&mut file, key, value)?;
        let slot = Slot {
            hash: hash(key),
            at: at as u32,
        };
        push_slot(&mut slots, slot)?;
        Ok(Writer { file, slots })
    }

    /// The file for the pairs that were added, in their order (cdb(5)), and whether a key comes more than once in them. `check`
    /// accepts it, `elements` gives of each key the first pair, and `find` its value.
    pub fn finish(self, alloc: Global) -> Result<Written, NoMemory>
        ensures file { IfOk result (λ written. written.bytes ≡ spec.written self) }
        ensures repeated { IfOk result (λ written. written.repeats ≡ true → spec.HasDistinctKeys self → ⊥) }
        ensures single { IfOk result (λ written. written.repeats ≡ false → spec.HasDistinctKeys self) }
        ensures fits { length (spec.written self) ≤ 67108864 }
        ensures sound { IfOk result (λ written. IsSound written.bytes) }
        ensures undamaged { IfOk result (λ written. first_damage written.bytes ≡ None) }
        ensures stands_for { IfOk result (λ written. elements_of written.bytes ≡ spec.firsts self) }
        ensures distinct { spec.HasDistinctKeys self → IfOk result (λ written. elements_of written.bytes ≡ self) }
        ensures finds { (key : List ℕ) → IfOk result (λ written.
            find (λ pair. bytes_eq pair.key key) (elements_of written.bytes) ≡ find (λ pair. bytes_eq pair.key key) self) }
    {
        let Writer { file, slots } = self;
        let (bytes, buckets) = finished(alloc, file, slots)?;
        let repeats = !all_held(bytes.as_slice(), buckets.as_slice());
        Ok(Written { bytes, repeats })
    }
}
