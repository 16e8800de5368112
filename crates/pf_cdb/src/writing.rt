//! Files that are written for a list of pairs.
ghost use Rattle.std.specs.Prelude.{◌≡◌, ◌<◌, ◌≤◌, ℕ, List, length, IfOk, None, Err, bytes_eq, find};
ghost use Rattle.pf_base.specs.Clauses.Unless.{Unless};
ghost use Rattle.pf_cdb.specs.Damaged.{first_damage};
ghost use Rattle.pf_cdb.specs.Held.{elements_of};
ghost use Rattle.pf_cdb.specs.Sound.{IsSound};
ghost use Rattle.pf_cdb.specs.Written as spec;

use crate::fault::WriteFault;
use crate::sizing::fits;
use crate::writer::{Writer, Written};
use pf_base::{Bytes, List, Pair};
use std::alloc::Global;

// A writer to which the entries are added.
fn with_all(alloc: Global, entries: &[Pair]) -> Result<Writer, WriteFault>
    ensures all { IfOk result (λ writer. writer ≡ entries.now) }
    ensures large { result ≡ Err WriteFault.TooLarge → 67108864 < length (spec.written entries.now) }
{
    let mut writer = Writer::new(alloc)?;
    for pair in entries {
        writer = writer.add(pair.key.as_slice(), pair.value.as_slice())?;
    }
    Ok(writer)
}

// The bytes of the file.
fn file_of(alloc: Global, entries: &[Pair]) -> Result<Bytes, WriteFault>
    ensures bytes { IfOk result (λ file. file ≡ spec.written entries.now) }
    ensures fits { IfOk result (λ file. length file ≤ 67108864) }
    ensures large { result ≡ Err WriteFault.TooLarge → 67108864 < length (spec.written entries.now) }
{
    let writer = with_all(alloc, entries)?;
    let Written { bytes, .. } = writer.finish(alloc)?;
    Ok(bytes)
}

/// The bytes of the cdb file for the entries, in their order (cdb(5)). `check` accepts the file, `elements` gives of each key
/// the first entry, and `find` its value. `TooLarge` comes exactly where the file would have more than `FILE_LIMIT` bytes.
pub fn write(alloc: Global, entries: &List<Pair>) -> Result<Bytes, WriteFault>
    ensures file { Unless result WriteFault.NoMemory (λ r. r ≡ spec.written_file entries.now) }
    ensures large { 67108864 < length (spec.written entries.now) → result ≡ Err WriteFault.TooLarge }
    ensures sound { IfOk result (λ file. IsSound file) }
    ensures undamaged { IfOk result (λ file. first_damage file ≡ None) }
    ensures stands_for { IfOk result (λ file. elements_of file ≡ spec.firsts entries.now) }
    ensures distinct { spec.HasDistinctKeys entries.now → IfOk result (λ file. elements_of file ≡ entries.now) }
    ensures finds { (key : List ℕ) → IfOk result (λ file.
        find (λ pair. bytes_eq pair.key key) (elements_of file) ≡ find (λ pair. bytes_eq pair.key key) entries.now) }
{
    if !fits(entries) {
        return Err(WriteFault::TooLarge);
    }
    file_of(alloc, entries.as_slice())
}
