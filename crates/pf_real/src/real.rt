//! The real objects outside: streams, a file that is appended to, and files under their names. Contracts know nothing of
//! their content, and count their faults, the bytes that were read, the reads that found the end, and the reads of files.
ghost use Rattle.std.specs.Prelude.{◌≡◌, None, IfOk};
ghost use Rattle.std.specs.Io.{ReadsAtMost};

use crate::plain::PlainFile;
use crate::replacement::replace;
use pf_base::{Failed, Files, OuterFault, Sink, Source};
use std::collections::BTreeMap;
use std::fs::{File, OpenOptions};
use std::io;
use std::io::{Read, Write};

/// Reads a stream.
#[derive(Drop)]
pub struct Reading<R: Drop> {
    reader: R,
    given: u64,
    ends: u64,
    ended: u64,
    faults: u64,
}

impl<R: Drop> Reading<R> {
    pub fn new(reader: R) -> Reading<R> {
        Reading {
            reader,
            given: 0,
            ends: 0,
            ended: 0,
            faults: 0,
        }
    }
}

impl<R: Read + Drop> Source for Reading<R> {
    ghost known = { λ source. record { left = None; given = source.given; ends = source.ends; ended = source.ended; faults = source.faults } };

    fn read(&mut self, buf: &mut [u8]) -> Result<usize, Failed> {
        match self.reader.read(buf) {
            Ok(count) => {
                if count == 0 && !buf.is_empty() {
                    self.ends = self.ends.saturating_add(1);
                    self.ended = self.given;
                    return Ok(0);
                }
                self.given = self.given.saturating_add(count as u64);
                Ok(count)
            }
            Err(_) => {
                self.faults = self.faults.saturating_add(1);
                Err(Failed)
            }
        }
    }
}

/// Writes a stream, each piece at once.
#[derive(Drop)]
pub struct Writing<W: Drop> {
    writer: W,
    faults: u64,
}

impl<W: Drop> Writing<W> {
    pub fn new(writer: W) -> Writing<W> {
        Writing { writer, faults: 0 }
    }
}

impl<W: Write + Drop> Sink for Writing<W> {
    ghost known = { λ sink. record { written = None; faults = sink.faults } };

    fn write(&mut self, piece: &[u8]) -> Result<(), OuterFault> {
        match self.writer.write_all(piece) {
            Ok(()) => Ok(()),
            Err(_) => {
                self.faults = self.faults.saturating_add(1);
                Err(OuterFault::Failed)
            }
        }
    }
}

/// Writes a file of this name, which is opened at the first write and made where it is not there. Each piece is appended to
/// what the file holds; several sinks may share a file.
#[derive(Drop)]
pub struct FileSink<'a> {
    rt: &'a HostRuntime,
    name: &'a str,
    file: Option<File>,
    faults: u64,
}

impl<'a> FileSink<'a> {
    pub fn new(rt: &'a HostRuntime, name: &'a str) -> FileSink<'a> {
        FileSink {
            rt,
            name,
            file: None,
            faults: 0,
        }
    }

    fn open(&self) -> io::Result<File> {
        let mut options = OpenOptions::new();
        options.append(true).create(true);
        options.open(self.rt, self.name)
    }

    // Appends a piece, in one write as far as the system takes it so.
    fn append(&mut self, piece: &[u8]) -> io::Result<()>
        ensures { self.new.faults ≡ self.old.faults }
    {
        match &mut self.file {
            Some(file) => file.write_all(piece),
            None => {
                let mut file = self.open()?;
                let written = file.write_all(piece);
                self.file = Some(file);
                written
            }
        }
    }
}

impl Sink for FileSink<'_> {
    ghost known = { λ sink. record { written = None; faults = sink.faults } };

    fn write(&mut self, piece: &[u8]) -> Result<(), OuterFault> {
        match self.append(piece) {
            Ok(()) => Ok(()),
            Err(_) => {
                self.faults = self.faults.saturating_add(1);
                Err(OuterFault::Failed)
            }
        }
    }
}

/// The files of the system, under their names as they are. What the first call on a name found, a plain file or nothing,
/// is what all later calls on it go by: the file stays open, and another that takes its name is not seen. A file that this run
/// puts in its place counts from then on. A name of anything else is a fault.
#[derive(Drop)]
pub struct RealFiles<'a> {
    rt: &'a HostRuntime,
    found: BTreeMap<String, Option<PlainFile>>,
    reads: u64,
    faults: u64,
}

impl<'a> RealFiles<'a> {
    pub fn new(rt: &'a HostRuntime) -> RealFiles<'a> {
        RealFiles {
            rt,
            found: BTreeMap::new(rt.alloc()),
            reads: 0,
            faults: 0,
        }
    }

    // Opens what is under the name, where this is the first call on it.
    fn look(&mut self, name: &str) -> io::Result<()>
        ensures reads { self.new.reads ≡ self.old.reads }
        ensures faults { self.new.faults ≡ self.old.faults }
    {
        if !self.found.contains_key(name) {
            let file = PlainFile::find(self.rt, name)?;
            let name = String::from_str(self.rt.alloc(), name)?;
            self.found.insert(name, file)?;
        }
        Ok(())
    }

    // The file that is under the name for this run; None where nothing does.
    fn file(&self, name: &str) -> Option<&PlainFile> {
        match self.found.get(name) {
            Some(Some(file)) => Some(file),
            _ => None,
        }
    }

    fn find_size(&mut self, name: &str) -> io::Result<Option<u64>>
        ensures reads { self.new.reads ≡ self.old.reads }
        ensures faults { self.new.faults ≡ self.old.faults }
    {
        self.look(name)?;
        match self.file(name) {
            Some(file) => Ok(Some(file.size())),
            None => Ok(None),
        }
    }

    fn read_some(&mut self, name: &str, at: u64, buf: &mut [u8]) -> io::Result<usize>
        ensures bound { ReadsAtMost result buf.new }
        ensures reads { self.new.reads ≡ self.old.reads }
        ensures faults { self.new.faults ≡ self.old.faults }
    {
        self.look(name)?;
        match self.file(name) {
            Some(file) => file.read_at(at, buf),
            None => Ok(0),
        }
    }

    fn put(&mut self, name: &str, bytes: &[u8]) -> io::Result<()>
        ensures reads { self.new.reads ≡ self.old.reads }
        ensures faults { self.new.faults ≡ self.old.faults }
    {
        self.look(name)?;
        let new = replace(self.rt, name, self.file(name), bytes)?;
        if let Some(file) = self.found.get_mut(name) {
            *file = Some(new);
        }
        Ok(())
    }
}

impl Files for RealFiles<'_> {
    ghost known = { λ files. record { content = None; reads = files.reads; faults = files.faults } };

    fn size(&mut self, name: &str) -> Result<Option<u64>, Failed> {
        match self.find_size(name) {
            Ok(size) => Ok(size),
            Err(_) => {
                self.faults = self.faults.saturating_add(1);
                Err(Failed)
            }
        }
    }

    fn read_at(&mut self, name: &str, at: u64, buf: &mut [u8]) -> Result<usize, Failed> {
        self.reads = self.reads.saturating_add(1);
        match self.read_some(name, at, buf) {
            Ok(count) => Ok(count),
            Err(_) => {
                self.faults = self.faults.saturating_add(1);
                Err(Failed)
            }
        }
    }

    fn replace(&mut self, name: &str, bytes: &[u8]) -> Result<(), OuterFault> {
        match self.put(name, bytes) {
            Ok(()) => Ok(()),
            Err(_) => {
                self.faults = self.faults.saturating_add(1);
                Err(OuterFault::Failed)
            }
        }
    }
}
