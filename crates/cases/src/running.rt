//! Runs of a plan over the objects in memory.
use case_files::{Call, Object, Plan, text_of};
use pf_base::{Files, List, MemFiles, MemSink, MemSource, NoMemory, Pair, Source};
use pf_pcre::Patterns;
use pf_top::run;
use std::alloc::Global;

/// The most bytes that one look at the rest of an input takes.
const PIECE: usize = 4096;

/// How often a file is read again whose reading was to fail in the run.
const LOOKS: u64 = 16;

/// What a run left.
#[derive(Drop)]
pub struct Left {
    pub status: u64,
    pub output: MemSink,
    pub record: MemSink,
    pub log: MemSink,
    pub files: MemFiles,
    pub unread: u64,
}

// The last call of an object that is named; those of the case are after those that all cases of its file share.
fn last_of(calls: &[Call], object: Object) -> Option<Call> {
    let mut last = None;
    for call in calls {
        if call.object == object {
            last = Some(*call);
        }
    }
    last
}

// The numbers of the calls of an object: those that the case names, or else the shared ones.
fn numbers_of(alloc: Global, calls: &[Call], object: Object) -> Result<List<u64>, NoMemory> {
    let mut numbers = List::new(alloc);
    if let Some(last) = last_of(calls, object) {
        for call in calls {
            if call.object == object && call.layer == last.layer {
                numbers.push(call.number)?;
            }
        }
    }
    Ok(numbers)
}

// How many calls of an object a case counts, if it does.
pub fn counted(calls: &[Call], object: Object) -> Option<u64> {
    match last_of(calls, object) {
        None => None,
        Some(last) => Some(last.number),
    }
}

fn files_of(alloc: Global, plan: &Plan, failing: &[Call]) -> Result<MemFiles, NoMemory> {
    let mut pairs = List::new(alloc);
    for file in &plan.files {
        pairs.push(Pair {
            key: file.name.copy(alloc)?,
            value: file.text.bytes.copy(alloc)?,
        })?;
    }
    let failing = numbers_of(alloc, failing, Object::Files)?;
    Ok(MemFiles::new(alloc, pairs, failing))
}

// The input in reads of at most so many bytes; 0 sets no limit.
fn input_of(
    alloc: Global,
    plan: &Plan,
    most: u64,
    failing: &[Call],
) -> Result<MemSource, NoMemory> {
    let bytes = plan.input.bytes.copy(alloc)?;
    let mut cuts = List::new(alloc);
    if most > 0 {
        cuts.push(most)?;
    }
    let failing = numbers_of(alloc, failing, Object::Input)?;
    Ok(MemSource::new(bytes, cuts, failing))
}

fn sink_of(alloc: Global, failing: &[Call], object: Object) -> Result<MemSink, NoMemory> {
    let failing = numbers_of(alloc, failing, object)?;
    Ok(MemSink::new(alloc, failing))
}

// How many bytes are left, whatever reads were to fail.
fn count_unread(source: &mut MemSource) -> u64 {
    let mut piece = [0u8; PIECE];
    let mut count: u64 = 0;
    for _ in 0..u64::MAX {
        match source.read(&mut piece) {
            Ok(0) => return count,
            Ok(more) => count = count.saturating_add(more as u64),
            Err(_) => {}
        }
    }
    count
}

/// Runs these words, in reads of at most so many bytes, while these calls fail.
pub fn run_words(
    alloc: Global,
    plan: &Plan,
    words: &[String],
    most: u64,
    failing: &[Call],
) -> Result<Left, NoMemory> {
    let mut input = input_of(alloc, plan, most, failing)?;
    let mut output = sink_of(alloc, failing, Object::Output)?;
    let mut record = sink_of(alloc, failing, Object::Record)?;
    let mut log = sink_of(alloc, failing, Object::Log)?;
    let mut files = files_of(alloc, plan, failing)?;
    let mut patterns = Patterns::new();
    let status = run(
        alloc,
        words,
        &mut input,
        &mut output,
        &mut record,
        &mut log,
        &mut files,
        &mut patterns,
    );
    let unread = count_unread(&mut input);
    Ok(Left {
        status: u64::from(status),
        output,
        record,
        log,
        files,
        unread,
    })
}

// Whether a file has this size, whatever calls were to fail.
fn has_size(files: &mut MemFiles, name: &str, wanted: u64) -> bool {
    for _ in 0..LOOKS {
        if let Ok(size) = files.size(name) {
            return size == Some(wanted);
        }
    }
    false
}

// Whether a piece of a file is this one, whatever calls were to fail.
fn has_piece(files: &mut MemFiles, name: &str, at: u64, wanted: &[u8]) -> bool {
    let mut piece = [0u8; PIECE];
    for _ in 0..LOOKS {
        if let Ok(count) = files.read_at(name, at, &mut piece) {
            return match piece.get(..count) {
                None => false,
                Some(seen) => seen.starts_with(wanted),
            };
        }
    }
    false
}

// Whether a file has this text.
fn has_text(files: &mut MemFiles, name: &str, wanted: &[u8]) -> bool {
    if !has_size(files, name, wanted.len() as u64) {
        return false;
    }
    let mut at: u64 = 0;
    for piece in wanted.chunks(PIECE) {
        if !has_piece(files, name, at, piece) {
            return false;
        }
        at = at.saturating_add(piece.len() as u64);
    }
    true
}

/// Whether a file has its text after the run: the one that the case gives it afterwards, or the one before.
pub fn is_as_wanted(plan: &Plan, files: &mut MemFiles, name: &[u8]) -> bool {
    let wanted = match text_of(plan.afterwards.as_slice(), name) {
        Some(text) => Some(text),
        None => text_of(plan.files.as_slice(), name),
    };
    match (wanted, str::from_utf8(name)) {
        (Some(wanted), Ok(name)) => has_text(files, name, wanted),
        _ => false,
    }
}
