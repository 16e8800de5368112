//! What a case, or one row of it, says, from its two texts.
use crate::case_file::{Case, CaseFile};
use crate::lines::{first_part, section_title};
use crate::part::{REFUSED, read_part};
use crate::plan::{Layer, Plan};
use crate::refusal::Fault;
use crate::rows::Row;
use crate::statement::LINE_FEEDS;
use pf_base::{Bytes, NoMemory};
use std::alloc::Global;

fn has_line(text: &[u8], wanted: &[u8]) -> bool {
    let mut left = text;
    for _ in 0..u64::MAX {
        let (line, after) = first_part(left, b'\n');
        if line == wanted {
            return true;
        }
        let Some(after) = after else {
            return false;
        };
        left = after;
    }
    false
}

/// Reads a case, or one row of it, after what all cases of its file share.
pub fn plan_of(alloc: Global, file: &CaseFile, case: &Case, row: Row<'_>) -> Result<Plan, Fault> {
    let shared = row.filled(alloc, file.shared.as_slice())?;
    let own = row.filled(alloc, case.own.as_slice())?;
    let has_line_feeds = has_line(shared.as_slice(), LINE_FEEDS)
        || has_line(own.as_slice(), LINE_FEEDS);
    let mut plan = Plan::new(alloc, has_line_feeds);
    read_part(alloc, &mut plan, Layer::Shared, shared.as_slice())?;
    read_part(alloc, &mut plan, Layer::Own, own.as_slice())?;
    Ok(plan)
}

// The words with which a reader has to refuse a part, from its statements.
fn refused_in(text: &[u8]) -> Option<&[u8]> {
    let mut left = text;
    for _ in 0..u64::MAX {
        let (line, after) = first_part(left, b'\n');
        if section_title(line).is_some() {
            return None;
        }
        if let Some(words) = line.strip_prefix(REFUSED) {
            return Some(words);
        }
        left = after?;
    }
    None
}

/// The words with which a reader has to refuse a case, or one row of it; empty where it has to run it.
pub fn refusal_of(
    alloc: Global,
    file: &CaseFile,
    case: &Case,
    row: Row<'_>,
) -> Result<Bytes, NoMemory> {
    let own = row.filled(alloc, case.own.as_slice())?;
    if let Some(words) = refused_in(own.as_slice()) {
        return Bytes::from_slice(alloc, words);
    }
    let shared = row.filled(alloc, file.shared.as_slice())?;
    Bytes::from_slice(alloc, refused_in(shared.as_slice()).unwrap_or(b""))
}
