//! The objects outside, in memory. Each is made with the numbers, from 1, of its calls that fail.
ghost use Rattle.std.specs.Prelude.{◌≡◌, ◌≤◌, ◌↔◌, ◌==◌, [], Some, Err, true, length, min, take, drop, IfOk, OnOk, OnErr, is_err, unwrap_or};
ghost use Rattle.std.specs.List.{find, list_any, position};
ghost use Rattle.std.specs.Option.{option_copied, option_map};
ghost use Rattle.std.specs.Str.{bytes_eq};
ghost use Rattle.std.specs.Io.{ReadsAtMost};
ghost use Rattle.pf_base.specs.Outside.Known.{Looks, Reads, Replaces, Writes, read_once};

use crate::bytes::Bytes;
use crate::fault::{Failed, NoMemory, OuterFault};
use crate::list::List;
use crate::outside::{Files, Sink, Source};
use crate::pair::Pair;
use std::alloc::Global;
use std::marker::Model;

// Whether a number is among these.
fn contains(numbers: &[u64], number: u64) -> bool
    ensures { result ≡ list_any (λ n. n == number) numbers.now }
{
    numbers.iter().any(|n| *n == number)
}

// Which calls fail, and how many there were.
#[derive(Debug, Drop)]
struct Schedule {
    failing: List<u64>,
    calls: u64,
    faults: u64,
}

impl Model for Schedule {
    ghost use Rattle.pf_base.specs.Clauses.Memory.{Calls};

    ghost Value = { Calls };

    ghost view = { λ schedule. record { failing = schedule.failing; made = schedule.calls; faults = schedule.faults } };
}

impl Schedule {
    ghost use Rattle.pf_base.specs.Clauses.Memory.{CountsCall, none_made};

    fn new(failing: List<u64>) -> Schedule
        ensures { result ≡ none_made failing }
    {
        Schedule {
            failing,
            calls: 0,
            faults: 0,
        }
    }

    // Counts a call, and says whether it fails.
    fn next(&mut self) -> bool
        ensures { CountsCall self.old self.new result }
    {
        let call = self.calls.saturating_add(1);
        let fails = contains(self.failing.as_slice(), call);
        self.calls = call;
        if fails {
            self.faults = self.faults.saturating_add(1);
        }
        fails
    }
}

// Copies the first bytes of what is left into the buffer, at most so many bytes, and says how many.
fn copy_prefix(buf: &mut [u8], left: &[u8], greatest: usize) -> usize
    ensures count { result ≡ min (min (length left.now) (length buf.old)) greatest }
    ensures copied { take result buf.new ≡ take result left.now }
{
    let count = left.len().min(buf.len()).min(greatest);
    buf[..count].copy_from_slice(&left[..count]);
    count
}

/// Bytes to read, in reads of given sizes.
#[derive(Debug, Drop)]
pub struct MemSource {
    bytes: Bytes,
    at: usize,
    given: u64,
    ends: u64,
    ended: u64,
    cuts: List<u64>,
    schedule: Schedule,
}

impl Model for MemSource {
    ghost use Rattle.std.specs.Prelude.{◌≤◌, drop, length};
    ghost use Rattle.pf_base.specs.Clauses.Memory.{MemorySource};

    ghost Value = { MemorySource };

    ghost view = { λ source. record {
      left = drop source.at source.bytes;
      given = source.given;
      ends = source.ends;
      ended = source.ended;
      cuts = source.cuts;
      calls = source.schedule;
    } };

    ghost invariant = { λ source. source.at ≤ length source.bytes };
}

impl MemSource {
    ghost use Rattle.pf_base.specs.Clauses.Memory.{greatest_read, none_made};

    /// These bytes. The first read gives at most as many bytes as the first of `cuts` says, the second as the second, and
    /// each read after the end of the list as its last; 0 stands for 1. Without `cuts` there is no such limit. `failing` are the numbers, from 1, of the reads that fail.
    pub fn new(bytes: Bytes, cuts: List<u64>, failing: List<u64>) -> MemSource
        ensures { result ≡ record { left = bytes; given = 0; ends = 0; ended = 0; cuts = cuts; calls = none_made failing } }
    {
        MemSource {
            bytes,
            at: 0,
            given: 0,
            ends: 0,
            ended: 0,
            cuts,
            schedule: Schedule::new(failing),
        }
    }

    // The most bytes that the read which was counted last gives.
    fn greatest_read(&self) -> u64
        ensures size { result ≡ greatest_read self.now.cuts self.now.calls.made }
        ensures some { 1 ≤ result }
    {
        let cuts = self.cuts.as_slice();
        match cuts {
            [] => u64::MAX,
            [_, more @ ..] => {
                let last = more.len() as u64;
                let place = self.schedule.calls.saturating_sub(1).min(last);
                (*self.cuts.at(place)).max(1)
            }
        }
    }
}

impl Source for MemSource {
    ghost use Rattle.pf_base.specs.Clauses.Memory.{MakesCall, bytes_read, fails_next, source_known};

    ghost known = { source_known };

    fn read(&mut self, buf: &mut [u8]) -> Result<usize, Failed>
        ensures bound { ReadsAtMost result buf.new }
        ensures bytes { Reads (source_known self.old) (source_known self.new) result buf.new }
        ensures fails { is_err result ≡ fails_next self.old.calls }
        ensures count { IfOk result (λ n. n ≡ bytes_read self.old (length buf.new)) }
        ensures call { MakesCall self.old.calls self.new.calls }
        ensures cuts { self.new.cuts ≡ self.old.cuts }
    {
        if self.schedule.next() {
            return Err(Failed);
        }
        if buf.is_empty() {
            return Ok(0);
        }
        let greatest = self.greatest_read() as usize;
        let left = &self.bytes.as_slice()[self.at..];
        let count = copy_prefix(buf, left, greatest);
        if count == 0 {
            self.ends = self.ends.saturating_add(1);
            self.ended = self.given;
            return Ok(0);
        }
        self.at += count;
        self.given = self.given.saturating_add(count as u64);
        Ok(count)
    }
}

/// Bytes that were written.
#[derive(Debug, Drop)]
pub struct MemSink {
    bytes: Bytes,
    schedule: Schedule,
}

impl Model for MemSink {
    ghost use Rattle.pf_base.specs.Clauses.Memory.{MemorySink};

    ghost Value = { MemorySink };

    ghost view = { λ sink. record { written = sink.bytes; calls = sink.schedule } };
}

impl MemSink {
    ghost use Rattle.pf_base.specs.Clauses.Memory.{none_made};

    /// Nothing written yet. `failing` are the numbers, from 1, of the writes that fail.
    pub fn new(alloc: Global, failing: List<u64>) -> MemSink
        ensures { result ≡ record { written = []; calls = none_made failing } }
    {
        MemSink {
            bytes: Bytes::new(alloc),
            schedule: Schedule::new(failing),
        }
    }

    /// What was written.
    pub fn bytes(&self) -> &Bytes
        ensures { result.now ≡ self.now.written }
    {
        &self.bytes
    }
}

impl Sink for MemSink {
    ghost use Rattle.pf_base.specs.Clauses.Memory.{MakesCall, fails_next, sink_known};

    ghost known = { sink_known };

    fn write(&mut self, piece: &[u8]) -> Result<(), OuterFault>
        ensures bytes { Writes (sink_known self.old) (sink_known self.new) result piece.now }
        ensures fails { (result ≡ Err OuterFault.Failed) ↔ (fails_next self.old.calls ≡ true) }
        ensures call { MakesCall self.old.calls self.new.calls }
    {
        if self.schedule.next() {
            return Err(OuterFault::Failed);
        }
        self.bytes.extend(piece)?;
        Ok(())
    }
}

/// Files under their names; of several with one name the first counts.
#[derive(Debug, Drop)]
pub struct MemFiles {
    alloc: Global,
    files: List<Pair>,
    reads: u64,
    schedule: Schedule,
}

impl Model for MemFiles {
    ghost use Rattle.pf_base.specs.Clauses.Memory.{MemoryFiles};

    ghost Value = { MemoryFiles };

    ghost view = { λ files. record { files = files.files; reads = files.reads; calls = files.schedule } };
}

impl MemFiles {
    ghost use Rattle.pf_base.specs.Outside.FileList.{with_file};
    ghost use Rattle.pf_base.specs.Clauses.Memory.{none_made};

    /// These files, each a name with its bytes; of several with one name the first counts. `failing` are the numbers,
    /// from 1, of the calls that fail.
    pub fn new(alloc: Global, files: List<Pair>, failing: List<u64>) -> MemFiles
        ensures { result ≡ record { files = files; reads = 0; calls = none_made failing } }
    {
        MemFiles {
            alloc,
            files,
            reads: 0,
            schedule: Schedule::new(failing),
        }
    }

    // The file of this name.
    fn find(&self, name: &str) -> Option<&Pair>
        ensures { option_copied result ≡ find (λ pair. bytes_eq pair.key name.now) self.now.files }
    {
        self.files
            .as_slice()
            .iter()
            .find(|pair| pair.key.as_slice() == name.as_bytes())
    }

    // The place of the file of this name.
    fn place(&self, name: &str) -> Option<usize>
        ensures { result ≡ position (λ pair. bytes_eq pair.key name.now) self.now.files }
    {
        self.files
            .as_slice()
            .iter()
            .position(|pair| pair.key.as_slice() == name.as_bytes())
    }

    // Puts these bytes under this name.
    fn put(&mut self, name: &str, bytes: &[u8]) -> Result<(), NoMemory>
        ensures ok { OnOk result (self.new ≡ record self.old { files = with_file self.old.files name.now bytes.now }) }
        ensures err { OnErr result (self.new ≡ self.old) }
    {
        let pair = Pair {
            key: Bytes::from_slice(self.alloc, name.as_bytes())?,
            value: Bytes::from_slice(self.alloc, bytes)?,
        };
        match self.place(name) {
            Some(place) => {
                self.files.set(place as u64, pair);
                Ok(())
            }
            None => {
                self.files.push(pair)?;
                Ok(())
            }
        }
    }
}

impl Files for MemFiles {
    ghost use Rattle.pf_base.specs.Clauses.Memory.{MakesCall, fails_next, files_known};
    ghost use Rattle.pf_base.specs.Outside.FileList.{file_of, ReadsFrom};
    ghost use Rattle.pf_base.specs.declared.pair.Pair.{Pair};

    ghost known = { files_known };

    fn size(&mut self, name: &str) -> Result<Option<u64>, Failed>
        ensures known { IfOk result (λ size. size ≡ option_map length (file_of self.old.files name.now)) }
        ensures same { Looks (files_known self.old) (files_known self.new) result }
        ensures fails { is_err result ≡ fails_next self.old.calls }
        ensures call { MakesCall self.old.calls self.new.calls }
    {
        if self.schedule.next() {
            return Err(Failed);
        }
        Ok(self.find(name).map(|pair| pair.value.len()))
    }

    fn read_at(&mut self, name: &str, at: u64, buf: &mut [u8]) -> Result<usize, Failed>
        ensures bound { ReadsAtMost result buf.new }
        ensures known { IfOk result (λ n. ReadsFrom (unwrap_or (file_of self.old.files name.now) []) at n buf.new) }
        ensures whole { IfOk result (λ n. n ≡ min (length (drop at (unwrap_or (file_of self.old.files name.now) []))) (length buf.old)) }
        ensures same { Looks (read_once (files_known self.old)) (files_known self.new) result }
        ensures fails { is_err result ≡ fails_next self.old.calls }
        ensures call { MakesCall self.old.calls self.new.calls }
    {
        self.reads = self.reads.saturating_add(1);
        if self.schedule.next() {
            return Err(Failed);
        }
        let Some(pair) = self.find(name) else {
            return Ok(0);
        };
        let bytes = pair.value.as_slice();
        let from = (at as usize).min(bytes.len());
        let left = &bytes[from..];
        Ok(copy_prefix(buf, left, usize::MAX))
    }

    fn replace(&mut self, name: &str, bytes: &[u8]) -> Result<(), OuterFault>
        ensures files { Replaces (files_known self.old) (files_known self.new) result name.now bytes.now }
        ensures fails { (result ≡ Err OuterFault.Failed) ↔ (fails_next self.old.calls ≡ true) }
        ensures call { MakesCall self.old.calls self.new.calls }
    {
        if self.schedule.next() {
            return Err(OuterFault::Failed);
        }
        self.put(name, bytes)?;
        Ok(())
    }
}
