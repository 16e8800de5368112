//! Steps with the real objects.
use crate::system::{Lock, system_step, take_up_open};
use pf_base::{Failed, Files, NoMemory, OuterFault, Sink, decimal};
use pf_real::{FileSink, RealFiles, Writing};
use std::alloc::{AllocError, Global};
use std::io;

/// The objects of a case, and the lock that it holds.
#[derive(Drop)]
pub struct Objects<'a> {
    rt: &'a HostRuntime,
    files: RealFiles<'a>,
    record: FileSink<'a>,
    lost: FileSink<'a>,
    first: FileSink<'a>,
    second: FileSink<'a>,
    lock: Lock,
}

impl<'a> Objects<'a> {
    pub fn new(rt: &'a HostRuntime) -> Objects<'a> {
        Objects {
            rt,
            files: RealFiles::new(rt),
            record: FileSink::new(rt, "record"),
            lost: FileSink::new(rt, "record/below"),
            first: FileSink::new(rt, "log"),
            second: FileSink::new(rt, "log"),
            lock: Lock::new(),
        }
    }
}

fn failed() -> io::Error {
    io::Error::from(io::ErrorKind::Other)
}

// What an answer without a value says.
fn said(alloc: Global, answer: Result<(), OuterFault>) -> io::Result<String> {
    match answer {
        Ok(()) => Ok(String::from_str(alloc, "ok")?),
        Err(OuterFault::Failed) => Err(failed()),
        Err(OuterFault::NoMemory) => Ok(String::from_str(alloc, "no memory")?),
    }
}

fn number_text(alloc: Global, number: u64) -> io::Result<String> {
    match decimal(alloc, number) {
        Ok(text) => Ok(text),
        Err(NoMemory) => Err(failed()),
    }
}

fn size(alloc: Global, files: &mut RealFiles<'_>, name: &str) -> io::Result<String> {
    match files.size(name) {
        Err(Failed) => Err(failed()),
        Ok(None) => Ok(String::from_str(alloc, "none")?),
        Ok(Some(size)) => number_text(alloc, size),
    }
}

// How many bytes come, and what the buffer holds.
fn read(alloc: Global, files: &mut RealFiles<'_>, name: &str, at: &str) -> io::Result<String> {
    let mut buf = [0u8; 4];
    match files.read_at(name, at.parse::<u64>().unwrap_or(0), &mut buf) {
        Err(Failed) => Err(failed()),
        Ok(count) => {
            let mut text = number_text(alloc, count as u64)?;
            text.push(' ')?;
            text.push_str(str::from_utf8(&buf).unwrap_or("no text"))?;
            Ok(text)
        }
    }
}

// Writes to a sink.
fn sink(objects: &mut Objects<'_>, name: &str, text: &str) -> Result<(), OuterFault> {
    let piece = text.as_bytes();
    match name {
        "record" => objects.record.write(piece),
        "lost" => objects.lost.write(piece),
        "first" => objects.first.write(piece),
        _ => objects.second.write(piece),
    }
}

/// Takes a step, and says what it comes to; a fault where it fails.
pub fn take_step(
    objects: &mut Objects<'_>,
    step: &str,
    name: &str,
    text: &str,
) -> io::Result<String> {
    let rt = objects.rt;
    let alloc = rt.alloc();
    match step {
        "size" => size(alloc, &mut objects.files, name),
        "read" => read(alloc, &mut objects.files, name, text),
        "replace" => said(alloc, objects.files.replace(name, text.as_bytes())),
        "new-replace" => said(alloc, RealFiles::new(rt).replace(name, text.as_bytes())),
        "sink" => said(alloc, sink(objects, name, text)),
        "stderr" => said(alloc, Writing::new(rt.stderr()).write(text.as_bytes())),
        "take-up" => take_up_open(rt, name),
        _ => system_step(rt, &mut objects.lock, step, name, text),
    }
}
