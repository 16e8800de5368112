//! The replacement of a file. The new one is written beside it, under its name with `.tmp` after it, and put in its place once
//! it is whole on the disk. It is locked meanwhile: only who has the lock of the file that is under that name moves or
//! removes it, so of several that replace one file at a time all but one fail.
use crate::plain::{PlainFile, is_absent};
use std::io::ErrorKind;
use std::path::PathBuf;
use std::{fs, io};

// A file that was not there may be read and written by all whom the process lets.
const PERMISSION_BITS: u32 = 0o666;

fn busy() -> io::Error {
    io::Error::new(ErrorKind::ResourceBusy, "another edit is at work")
}

// The file that a name stands for, after links. A name of nothing stands for itself.
fn behind_links(rt: &HostRuntime, name: &str) -> io::Result<PathBuf> {
    match fs::symlink_metadata(rt, name) {
        Ok(metadata) if metadata.is_symlink() => fs::canonicalize(rt, name),
        Err(fault) if fault.kind() != ErrorKind::NotFound => Err(fault),
        _ => Ok(PathBuf::from_str(rt.alloc(), name)?),
    }
}

// Removes what a run that was broken off has left beside. A run that is at work has its lock, which is a fault, as is anything
// else of that name.
fn clear(rt: &HostRuntime, beside: &str) -> io::Result<()> {
    let Some(left) = PlainFile::find(rt, beside)? else {
        return Ok(());
    };
    if left.takes_lock(rt, beside)? {
        fs::remove_file(rt, beside)
    } else {
        Err(busy())
    }
}

// Makes the new file, which is empty and locked. Where another run took it for one that was left, that run removes it; where
// there are no locks, it is removed here.
fn begin(rt: &HostRuntime, beside: &str, old: Option<&PlainFile>) -> io::Result<PlainFile> {
    clear(rt, beside)?;
    let permission_bits = match old {
        Some(file) => file.permission_bits(),
        None => PERMISSION_BITS,
    };
    let new = PlainFile::make(rt, beside, permission_bits)?;
    match new.takes_lock(rt, beside) {
        Ok(true) => Ok(new),
        Ok(false) => Err(busy()),
        Err(fault) => {
            let _ = fs::remove_file(rt, beside);
            Err(fault)
        }
    }
}

// Whether what this run found under the name is there still.
fn is_as_found(rt: &HostRuntime, path: &str, old: Option<&PlainFile>) -> io::Result<bool> {
    match old {
        Some(file) => file.stands_under(rt, path),
        None => is_absent(rt, path),
    }
}

// Writes the new file, and puts it in the place of the old one if that is as it was found.
fn finish(
    rt: &HostRuntime,
    new: &mut PlainFile,
    beside: &str,
    path: &str,
    old: Option<&PlainFile>,
    bytes: &[u8],
) -> io::Result<()> {
    new.fill(bytes, old)?;
    if !is_as_found(rt, path, old)? {
        return Err(busy());
    }
    fs::rename(rt, beside, path)
}

/// Replaces what was found under the name, a plain file or nothing, by a file of these bytes, and answers the new file. Where the
/// name is a link, the file that it leads to is replaced. The new file has the owner, the group and the permissions of the old one.
/// A fault where they can not be kept, where another run replaces the file at the same time, or where it is no longer the one
/// that was found; then nothing is changed, and nothing left beside.
pub fn replace(
    rt: &HostRuntime,
    name: &str,
    old: Option<&PlainFile>,
    bytes: &[u8],
) -> io::Result<PlainFile> {
    let path = behind_links(rt, name)?;
    let beside = format!(in rt.alloc(); "{}.tmp", path.as_str())?;
    let mut new = begin(rt, beside.as_str(), old)?;
    match finish(rt, &mut new, beside.as_str(), path.as_str(), old, bytes) {
        Ok(()) => Ok(new),
        Err(fault) => {
            let _ = fs::remove_file(rt, beside.as_str());
            Err(fault)
        }
    }
}
