//! What a run left beside what its case wants.
use crate::report::{Report, SHOWN, add_number, add_shown};
use crate::running::{Left, is_as_wanted};
use case_files::Plan;
use pf_base::{Bytes, NoMemory};
use std::alloc::Global;

// Where two texts are shown from: the prefix, or the first byte that differs where that is too far after.
fn shown_from(wanted: &[u8], seen: &[u8]) -> usize {
    let place = wanted.iter().zip(seen.iter()).position(|(a, b)| *a != *b);
    let place = place.unwrap_or(wanted.len().min(seen.len()));
    if place < SHOWN { 0 } else { place }
}

/// Reports a difference of this name in the run of this place.
pub fn differs(
    report: &mut Report,
    place: &[u8],
    what: &[u8],
    wanted: &[u8],
    seen: &[u8],
) -> Result<(), NoMemory> {
    let from = shown_from(wanted, seen);
    report.differences = report.differences.saturating_add(1);
    report.found.extend_all(&[place, what, b": wanted '"])?;
    add_shown(&mut report.found, wanted, from)?;
    report.found.extend(b"', came '")?;
    add_shown(&mut report.found, seen, from)?;
    report.found.extend(b"'\n")
}

/// Compares two texts.
pub fn compare(
    report: &mut Report,
    place: &[u8],
    what: &[u8],
    wanted: &[u8],
    seen: &[u8],
) -> Result<(), NoMemory> {
    if wanted == seen {
        Ok(())
    } else {
        differs(report, place, what, wanted, seen)
    }
}

/// Compares two numbers.
pub fn compare_numbers(
    alloc: Global,
    report: &mut Report,
    place: &[u8],
    what: &[u8],
    wanted: u64,
    seen: u64,
) -> Result<(), NoMemory> {
    if wanted == seen {
        return Ok(());
    }
    let mut wanted_text = Bytes::new(alloc);
    add_number(alloc, &mut wanted_text, wanted)?;
    let mut seen_text = Bytes::new(alloc);
    add_number(alloc, &mut seen_text, seen)?;
    differs(
        report,
        place,
        what,
        wanted_text.as_slice(),
        seen_text.as_slice(),
    )
}

// The first lines of a text, with their ends; all of it where no number is given.
fn first_lines(text: &[u8], number: Option<u64>) -> &[u8] {
    let Some(number) = number else {
        return text;
    };
    let mut left = number;
    for (place, byte) in text.iter().enumerate() {
        if left == 0 {
            return text.get(..place).unwrap_or(text);
        }
        if *byte == b'\n' {
            left = left.saturating_sub(1);
        }
    }
    if left == number && number == 0 {
        b""
    } else {
        text
    }
}

// Compares the files of the case, and those that it wants afterwards.
fn compare_files(
    report: &mut Report,
    place: &[u8],
    plan: &Plan,
    left: &mut Left,
) -> Result<(), NoMemory> {
    for file in plan.files.iter().chain(plan.afterwards.iter()) {
        let name = file.name.as_slice();
        if !is_as_wanted(plan, &mut left.files, name) {
            differs(report, place, b"file", name, b"another text")?;
        }
    }
    Ok(())
}

/// Reports each difference between what a run left and what its case wants.
pub fn compare_run(
    alloc: Global,
    report: &mut Report,
    place: &[u8],
    plan: &Plan,
    left: &mut Left,
) -> Result<(), NoMemory> {
    compare_numbers(alloc, report, place, b"status", plan.status, left.status)?;
    let output = first_lines(plan.output.bytes.as_slice(), plan.replies);
    compare(
        report,
        place,
        b"output",
        output,
        left.output.bytes().as_slice(),
    )?;
    let log = first_lines(plan.log.bytes.as_slice(), plan.log_lines);
    compare(report, place, b"log", log, left.log.bytes().as_slice())?;
    let record = plan.record.bytes.as_slice();
    compare(
        report,
        place,
        b"record",
        record,
        left.record.bytes().as_slice(),
    )?;
    if let Some(unread) = plan.unread {
        compare_numbers(alloc, report, place, b"bytes unread", unread, left.unread)?;
    }
    compare_files(report, place, plan, left)
}
