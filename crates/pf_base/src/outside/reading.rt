//! Whole files.
ghost use Rattle.std.specs.Prelude.{◌≡◌, ◌≢◌, ◌<◌, ◌≤◌, ◌+◌, List as Seq, [], Some, Ok, Err, length, take, unwrap_or, IfOk};
ghost use Rattle.pf_base.specs.Outside.FileList.{file_of, whole_file};
ghost use Rattle.pf_base.specs.Clauses.FileParts.{AddsPart};
ghost use Rattle.pf_base.specs.Outside.Known.{ReadsWhole};
ghost use Rattle.pf_base.specs.declared.pair.Pair.{Pair};

use crate::bytes::Bytes;
use crate::fault::{Failed, NoMemory};
use crate::outside::Files;
use std::alloc::Global;
use thiserror::Error;

/// The most bytes that a file may have: 64 MiB, postgate's own limit.
pub const FILE_LIMIT: u64 = 67_108_864;

// The most bytes that are read at once.
const PART_SIZE: usize = 4096;

/// Why a file was not read.
#[derive(Clone, Copy, Debug, PartialEq, Eq, Drop, Error)]
pub enum ReadFault {
    /// The count of faults of the files rose.
    #[error("a read failed")]
    Failed,
    /// The file has more than [`FILE_LIMIT`] bytes.
    #[error("the file is too large")]
    TooLarge,
    /// Out of memory.
    #[error("no memory")]
    NoMemory,
}

impl From<NoMemory> for ReadFault {
    ghost use Rattle.std.specs.Prelude.{◌≡◌};
    ghost use Rattle.pf_base.specs.declared.outside.reading.ReadFault.TheVariants.{NoMemory};

    ghost from_gives = { λ _ fault. fault ≡ NoMemory };

    fn from(_: NoMemory) -> ReadFault {
        ReadFault::NoMemory
    }
}

// Adds the next bytes of the file, up to so many in all, and says how many they are.
fn read_part<F: Files>(
    files: &mut F,
    name: &str,
    size: u64,
    bytes: &mut Bytes,
) -> Result<usize, ReadFault>
    requires { length bytes.old < size }
    ensures known { (all : Seq Pair) → (F.known files.old).content ≡ Some all →
        IfOk result (λ n. AddsPart (unwrap_or (file_of all name.now) []) bytes.old bytes.new n) }
    ensures count { IfOk result (λ n. length bytes.new ≡ length bytes.old + n) }
    ensures room { IfOk result (λ n. length bytes.old + n ≤ size) }
    ensures not_large { result ≢ Err ReadFault.TooLarge }
    ensures tree { ReadsWhole (F.known files.old) (F.known files.new) result }
{
    let mut buf = [0u8; PART_SIZE];
    let room = (size - bytes.len()).min(PART_SIZE as u64) as usize;
    let part = &mut buf[..room];
    let Ok(count) = files.read_at(name, bytes.len(), part) else {
        return Err(ReadFault::Failed);
    };
    bytes.extend(&part[..count])?;
    Ok(count)
}

// The first bytes of the file, as many as its size, or all that a read gives.
fn read_up_to<F: Files>(
    alloc: Global,
    files: &mut F,
    name: &str,
    size: u64,
) -> Result<Bytes, ReadFault>
    ensures known { (all : Seq Pair) → (F.known files.old).content ≡ Some all →
        IfOk result (λ bytes. bytes ≡ take size (unwrap_or (file_of all name.now) [])) }
    ensures not_large { result ≢ Err ReadFault.TooLarge }
    ensures tree { ReadsWhole (F.known files.old) (F.known files.new) result }
{
    let mut bytes = Bytes::new(alloc);
    'parts: while bytes.len() < size {
        if read_part(files, name, size, &mut bytes)? == 0 {
            return Ok(bytes);
        }
    }
    Ok(bytes)
}

/// The whole file; None where there is no such file. It is too large exactly where its size is above [`FILE_LIMIT`],
/// and `Failed` comes only where the count of faults of `files` rose by one. A read that answers 0 ends the file there.
pub fn read_all<F: Files>(
    alloc: Global,
    files: &mut F,
    name: &str,
) -> Result<Option<Bytes>, ReadFault>
    ensures known { (all : Seq Pair) → (F.known files.old).content ≡ Some all →
        IfOk result (λ found. whole_file (file_of all name.now) ≡ Ok found) }
    ensures large { (all : Seq Pair) → (F.known files.old).content ≡ Some all →
        result ≡ Err ReadFault.TooLarge → whole_file (file_of all name.now) ≡ Err ReadFault.TooLarge }
    ensures tree { ReadsWhole (F.known files.old) (F.known files.new) result }
{
    match files.size(name) {
        Err(Failed) => Err(ReadFault::Failed),
        Ok(None) => Ok(None),
        Ok(Some(size)) => {
            if size > FILE_LIMIT {
                return Err(ReadFault::TooLarge);
            }
            let bytes = read_up_to(alloc, files, name, size)?;
            Ok(Some(bytes))
        }
    }
}
