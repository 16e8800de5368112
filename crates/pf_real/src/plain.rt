//! Plain files of the system.
ghost use Rattle.std.specs.Io.{ReadsAtMost};

use std::fs::{File, Metadata, OpenOptions, TryLockError};
use std::io::{ErrorKind, Write};
use std::os::unix::fs::{FileExt, MetadataExt, OpenOptionsExt, fchown};
use std::{fs, io};

/// A plain file that is open, and what the system said of it when it was opened.
#[derive(Drop)]
pub struct PlainFile {
    file: File,
    metadata: Metadata,
}

fn require_plain(metadata: &Metadata) -> io::Result<()> {
    if metadata.is_file() {
        Ok(())
    } else {
        Err(io::Error::new(ErrorKind::InvalidInput, "not a plain file"))
    }
}

fn is_same_file(one: &Metadata, other: &Metadata) -> bool {
    one.dev() == other.dev() && one.ino() == other.ino()
}

// As far as the size and the time of the last change tell.
fn has_same_text(one: &Metadata, other: &Metadata) -> bool {
    one.len() == other.len()
        && one.mtime() == other.mtime()
        && one.mtime_nsec() == other.mtime_nsec()
}

fn has_same_owner_and_mode(one: &Metadata, other: &Metadata) -> bool {
    one.uid() == other.uid() && one.gid() == other.gid() && one.mode() == other.mode()
}

impl PlainFile {
    fn new(file: File) -> io::Result<PlainFile> {
        let metadata = file.metadata()?;
        require_plain(&metadata)?;
        Ok(PlainFile { file, metadata })
    }

    // A file of the kernel, as those of /proc, has bytes beyond the size 0 that the system says of it.
    fn require_true_size(&self) -> io::Result<()> {
        if self.size() == 0 && self.read_at(0, &mut [0])? > 0 {
            Err(io::Error::new(ErrorKind::InvalidInput, "more bytes than its size"))
        } else {
            Ok(())
        }
    }

    /// Opens the file that a name leads to; None where nothing has the name. All but a plain file is a fault, a link that
    /// leads nowhere and a file of the size 0 that has bytes too. It is looked at before it is opened, since opening a FIFO
    /// waits for its writer.
    pub fn find(rt: &HostRuntime, name: &str) -> io::Result<Option<PlainFile>> {
        if is_absent(rt, name)? {
            return Ok(None);
        }
        require_plain(&fs::metadata(rt, name)?)?;
        let file = PlainFile::new(fs::open(rt, name)?)?;
        file.require_true_size()?;
        Ok(Some(file))
    }

    /// Makes an empty file, which is a fault where something has the name. No more may read and write it than these
    /// permission bits let.
    pub fn make(rt: &HostRuntime, name: &str, permission_bits: u32) -> io::Result<PlainFile> {
        let mut options = OpenOptions::new();
        options
            .read(true)
            .write(true)
            .create_new(true)
            .mode(permission_bits);
        PlainFile::new(options.open(rt, name)?)
    }

    /// How many bytes it had when it was opened or filled.
    pub fn size(&self) -> u64 {
        self.metadata.len()
    }

    /// The permission bits that it had when it was opened or filled.
    pub fn permission_bits(&self) -> u32 {
        self.metadata.mode() & 0o777
    }

    /// Reads bytes from the place `at` on, and says how many: 0 at the end alone, where the buffer is not empty.
    pub fn read_at(&self, at: u64, buf: &mut [u8]) -> io::Result<usize>
        ensures { ReadsAtMost result buf.new }
    {
        self.file.read_at(buf, at)
    }

    /// Locks the file for this run alone, and says whether that was done and the name is that of this file still.
    pub fn takes_lock(&self, rt: &HostRuntime, name: &str) -> io::Result<bool> {
        match self.file.try_lock() {
            Ok(()) => match fs::symlink_metadata(rt, name) {
                Ok(metadata) => Ok(is_same_file(&metadata, &self.metadata)),
                Err(_) => Ok(false),
            },
            Err(TryLockError::WouldBlock) => Ok(false),
            Err(TryLockError::Error(fault)) => Err(fault),
        }
    }

    /// Writes the bytes to the end, gives the file the owner and the permissions of the old one, and sees to it that all is
    /// on the disk.
    pub fn fill(&mut self, bytes: &[u8], old: Option<&PlainFile>) -> io::Result<()> {
        self.file.write_all(bytes)?;
        if let Some(old) = old {
            self.take_owner_and_mode(&old.file.metadata()?)?;
        }
        self.file.sync_all()?;
        self.metadata = self.file.metadata()?;
        Ok(())
    }

    // Takes over the owner, the group and the permissions. A fault where one of them can not be had.
    fn take_owner_and_mode(&self, old: &Metadata) -> io::Result<()> {
        fchown(&self.file, Some(old.uid()), Some(old.gid()))?;
        self.file.set_permissions(old.permissions())?;
        if has_same_owner_and_mode(old, &self.file.metadata()?) {
            Ok(())
        } else {
            Err(io::Error::new(ErrorKind::PermissionDenied, "owner or permissions lost"))
        }
    }

    /// Whether the name leads to this file, and its text is that of the time when it was opened, as far as its size and the
    /// time of its last change tell.
    pub fn stands_under(&self, rt: &HostRuntime, name: &str) -> io::Result<bool> {
        let now = fs::metadata(rt, name)?;
        Ok(is_same_file(&now, &self.metadata) && has_same_text(&now, &self.metadata))
    }
}

/// Nothing has the name, not even a link that leads nowhere.
pub fn is_absent(rt: &HostRuntime, name: &str) -> io::Result<bool> {
    match fs::symlink_metadata(rt, name) {
        Ok(_) => Ok(false),
        Err(fault) if fault.kind() == ErrorKind::NotFound => Ok(true),
        Err(fault) => Err(fault),
    }
}
