//! A case once more for each call of each object, while that call fails.
use crate::differences::{compare, compare_numbers, differs};
use crate::report::{Report, add_number};
use crate::running::{Left, counted, run_words};
use case_files::{Call, Layer, Object, Plan};
use pf_base::{Bytes, NoMemory};
use std::alloc::Global;

static OBJECTS: [Object; 5] = [
    Object::Input,
    Object::Output,
    Object::Record,
    Object::Log,
    Object::Files,
];

fn name_of(object: Object) -> &'static [u8] {
    match object {
        Object::Input => b"reads",
        Object::Output => b"writes of the output",
        Object::Record => b"writes of the record",
        Object::Log => b"writes of the log",
        Object::Files => b"calls of the files",
    }
}

// The status of a run in which a call of the object failed.
fn status_of(object: Object) -> u64 {
    match object {
        Object::Input => 4,
        Object::Output => 5,
        Object::Record => 6,
        Object::Log => 7,
        Object::Files => 8,
    }
}

// Whether a log is the one line that tells a fault of the files.
fn knows_files(log: &[u8]) -> bool {
    let is_known = log.ends_with(b": read failed\n") || log.ends_with(b": replace failed\n");
    is_known && log.iter().filter(|b| **b == b'\n').count() == 1
}

// Whether a run that met a fault left prefixes of what the whole one left.
fn is_cut_off(object: Object, whole: &Left, left: &Left) -> bool {
    let log = left.log.bytes().as_slice();
    let has_log = match object {
        Object::Files => knows_files(log),
        _ => whole.log.bytes().as_slice().starts_with(log),
    };
    has_log
        && whole
            .output
            .bytes()
            .as_slice()
            .starts_with(left.output.bytes().as_slice())
        && whole
            .record
            .bytes()
            .as_slice()
            .starts_with(left.record.bytes().as_slice())
}

// The place of a run whose call of this number fails.
fn place_of(alloc: Global, place: &[u8], call: Call) -> Result<Bytes, NoMemory> {
    let mut text = Bytes::from_slice(alloc, place)?;
    text.extend(b"where call ")?;
    add_number(alloc, &mut text, call.number)?;
    text.extend_all(&[b" of the ", name_of(call.object), b" fails: "])?;
    Ok(text)
}

// Compares a run that has the status of the whole one with it in all that it left.
fn compare_whole(
    alloc: Global,
    report: &mut Report,
    place: &[u8],
    whole: &Left,
    left: &Left,
) -> Result<(), NoMemory> {
    compare_numbers(alloc, report, place, b"status", whole.status, left.status)?;
    for (what, wanted, seen) in [
        (b"output".as_slice(), &whole.output, &left.output),
        (b"log".as_slice(), &whole.log, &left.log),
        (b"record".as_slice(), &whole.record, &left.record),
    ] {
        compare(
            report,
            place,
            what,
            wanted.bytes().as_slice(),
            seen.bytes().as_slice(),
        )?;
    }
    Ok(())
}

// Runs the case while one call fails, and says whether the run met the fault.
fn run_turn(
    alloc: Global,
    report: &mut Report,
    place: &[u8],
    plan: &Plan,
    words: &[String],
    whole: &Left,
    call: Call,
) -> Result<bool, NoMemory> {
    let most = plan.reads.unwrap_or(0);
    let left = run_words(alloc, plan, words, most, &[call])?;
    report.runs = report.runs.saturating_add(1);
    if left.status != status_of(call.object) {
        let place = place_of(alloc, place, call)?;
        compare_whole(alloc, report, place.as_slice(), whole, &left)?;
        return Ok(false);
    }
    if !is_cut_off(call.object, whole, &left) {
        let place = place_of(alloc, place, call)?;
        differs(
            report,
            place.as_slice(),
            b"texts",
            b"prefixes",
            left.log.bytes().as_slice(),
        )?;
    }
    Ok(true)
}

// How many calls of an object a run makes, each of which fails in its turn.
fn count_turns(
    alloc: Global,
    report: &mut Report,
    place: &[u8],
    plan: &Plan,
    words: &[String],
    whole: &Left,
    object: Object,
) -> Result<u64, NoMemory> {
    for number in 1..u64::MAX {
        let call = Call {
            object,
            number,
            layer: Layer::Own,
        };
        if !run_turn(alloc, report, place, plan, words, whole, call)? {
            return Ok(number.saturating_sub(1));
        }
    }
    Ok(u64::MAX)
}

/// Runs the case once for each call of each object, and reports each difference.
pub fn run_turns(
    alloc: Global,
    report: &mut Report,
    place: &[u8],
    plan: &Plan,
    words: &[String],
    whole: &Left,
) -> Result<(), NoMemory> {
    for object in &OBJECTS {
        let met = count_turns(alloc, report, place, plan, words, whole, *object)?;
        if let Some(wanted) = counted(plan.calls.as_slice(), *object) {
            compare_numbers(alloc, report, place, name_of(*object), wanted, met)?;
        }
    }
    Ok(())
}
