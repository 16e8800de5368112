//! Files of rows, which programs of tests read: a row asks something of a text and has what must be said. docs/CASES.md is the
//! reference of their format.
#![tactic(auto)]

use pf_base::{Bytes, NoMemory, decimal};
use std::alloc::Global;
use std::process::ExitCode;
use std::{fs, io};

/// What says something of texts.
pub trait Says {
    /// Adds what is said of a text, of what the prefix of its row asks.
    fn say(
        &mut self,
        alloc: Global,
        said: &mut Bytes,
        prefix: &str,
        text: &str,
    ) -> Result<(), NoMemory>;
}

// What a character of a row stands for.
fn meant(c: char) -> char {
    match c {
        '␊' | '␤' => '\n',
        '␍' => '\r',
        '␉' => '\t',
        '␀' => '\0',
        '␡' => '\x7f',
        _ => c,
    }
}

// A row with its control bytes.
fn decoded(alloc: Global, row: &str) -> Result<String, NoMemory> {
    let mut text = String::new(alloc);
    for c in row.chars() {
        text.push(meant(c))?;
    }
    Ok(text)
}

// Whether a row is so.
fn is_so<S: Says>(alloc: Global, says: &mut S, line: &str) -> Result<bool, NoMemory> {
    let row = decoded(alloc, line)?;
    let Some((prefix, behind)) = row.as_str().split_once('¦') else {
        return Ok(false);
    };
    let Some((text, wanted)) = behind.split_once('¦') else {
        return Ok(false);
    };
    let mut said = Bytes::new(alloc);
    says.say(alloc, &mut said, prefix, text)?;
    Ok(said.as_slice() == wanted.as_bytes())
}

// Begins a line of a report on the rows of a place.
fn begin_line(report: &mut Bytes, place: &str) -> Result<(), NoMemory> {
    if place.is_empty() {
        Ok(())
    } else {
        report.extend_all(&[place.as_bytes(), b": "])
    }
}

// Looks at all rows, reports those that are not so, and says whether there is none.
fn judge<S: Says>(
    alloc: Global,
    says: &mut S,
    place: &str,
    text: &str,
    report: &mut Bytes,
) -> Result<bool, NoMemory> {
    let mut rows: u64 = 0;
    let mut all_so = true;
    for line in text.split('\n') {
        if !line.is_empty() && !line.starts_with("# ") {
            rows = rows.saturating_add(1);
            if !is_so(alloc, says, line)? {
                all_so = false;
                begin_line(report, place)?;
                report.extend_all(&[b"not so: ", line.as_bytes(), b"\n"])?;
            }
        }
    }
    let count = decimal(alloc, rows)?;
    begin_line(report, place)?;
    report.extend_all(&[count.as_bytes(), b" rows\n"])?;
    Ok(all_so)
}

// Prints the rows of the file that are not so and how many rows there are, and says whether each is so.
fn look<S: Says>(rt: &HostRuntime, file: &str, place: &str, says: &mut S) -> io::Result<bool> {
    let text = fs::read_to_string(rt, file)?;
    let mut report = Bytes::new(rt.alloc());
    match judge(rt.alloc(), says, place, text.as_str(), &mut report) {
        Err(NoMemory) => Ok(false),
        Ok(all_so) => {
            rt.stdout().write_all(report.as_slice())?;
            Ok(all_so)
        }
    }
}

/// Prints each row of the file of this name that is not so, and how many rows there are, after the name. It says whether each
/// is so, which it is not where the file can not be read, and for lack of memory.
pub fn judge_file<S: Says>(rt: &HostRuntime, name: &str, says: &mut S) -> bool {
    look(rt, name, name, says).unwrap_or(false)
}

/// Prints each row of the file `rows` that is not so, and how many rows there are. It fails where one is not so, where the file
/// can not be read, and for lack of memory.
pub fn judge_rows<S: Says>(rt: &HostRuntime, says: &mut S) -> ExitCode {
    match look(rt, "rows", "", says) {
        Ok(true) => ExitCode::SUCCESS,
        _ => ExitCode::FAILURE,
    }
}
