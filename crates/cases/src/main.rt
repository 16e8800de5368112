//! cases: runs the case files of its folder through the top call, over the objects in memory, and prints what differs.
//! docs/CASES.md is the reference of their format.
#![tactic(auto)]

mod differences;
mod judging;
mod report;
mod running;
mod turns;

use judging::judge_file;
use pf_base::{Bytes, NoMemory};
use report::{Report, add_number};
use std::alloc::Global;
use std::process::ExitCode;
use std::{fs, io};

/// What the name of a case file ends in.
const SUFFIX: &str = ".case";

/// A case differed, or could not be run.
const DIFFERS: u8 = 1;

/// A case file could not be read, or it was out of memory.
const STOPPED: u8 = 2;

const UNREAD: &[u8] = b"cases: a case file can not be read, or there is not enough memory\n";

fn no_memory(_: NoMemory) -> io::Error {
    io::Error::from(io::ErrorKind::OutOfMemory)
}

// The names of the case files of this folder, in byte order.
fn names(rt: &HostRuntime) -> io::Result<Vec<String>> {
    let mut names = Vec::new(rt.alloc());
    for entry in fs::read_dir(rt, ".")? {
        let entry = entry?;
        let name = entry.file_name();
        if name.ends_with(SUFFIX) {
            names.push(String::from_str(rt.alloc(), name)?)?;
        }
    }
    names.sort_unstable();
    Ok(names)
}

// Runs the files of these names, and reports on each.
fn judge_files(rt: &HostRuntime, report: &mut Report) -> io::Result<()> {
    for name in &names(rt)? {
        let text = fs::read(rt, name.as_str())?;
        judge_file(rt.alloc(), report, name.as_bytes(), text.as_slice()).map_err(no_memory)?;
    }
    Ok(())
}

// Adds the last line.
fn add_counts(alloc: Global, report: &mut Report) -> Result<(), NoMemory> {
    let mut line = Bytes::new(alloc);
    add_number(alloc, &mut line, report.cases)?;
    line.extend(b" cases, ")?;
    add_number(alloc, &mut line, report.rows)?;
    line.extend(b" rows, ")?;
    add_number(alloc, &mut line, report.runs)?;
    line.extend(b" runs, ")?;
    add_number(alloc, &mut line, report.differences)?;
    line.extend(b" differ\n")?;
    report.text.extend(line.as_slice())
}

// Runs all files, and says whether nothing differed.
fn judge_all(rt: &HostRuntime) -> io::Result<bool> {
    let mut report = Report::new(rt.alloc());
    judge_files(rt, &mut report)?;
    add_counts(rt.alloc(), &mut report).map_err(no_memory)?;
    rt.stdout().write_all(report.text.as_slice())?;
    Ok(report.differences == 0)
}

fn main(rt: HostRuntime) -> ExitCode {
    match judge_all(&rt) {
        Ok(true) => ExitCode::SUCCESS,
        Ok(false) => ExitCode::from(DIFFERS),
        Err(_) => {
            let _ = rt.stderr().write_all(UNREAD);
            ExitCode::from(STOPPED)
        }
    }
}
