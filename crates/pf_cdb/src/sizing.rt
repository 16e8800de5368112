//! How large the file for some pairs would be.
ghost use Rattle.std.specs.Prelude.{◌≡◌, ◌+◌, ◌<◌, ◌≤◌, true, false, length, IfSome, IfNone};
ghost use Rattle.pf_cdb.specs.Written as spec;

use crate::layout::{HEADER_SIZE, LENGTHS_SIZE, SLOT_SIZE};
use pf_base::{FILE_LIMIT, List, Pair};

// Where the record of an entry and its two slots end, if they begin at `at`; None where that is after the greatest file.
fn entry_end(at: u64, pair: &Pair) -> Option<u64>
    requires { at ≤ 67108864 }
    ensures some { IfSome result (λ end. (end ≡ at + (spec.record_size pair.now + 16)) × (end ≤ 67108864)) }
    ensures none { IfNone result (67108864 < at + (spec.record_size pair.now + 16)) }
{
    let key = pair.key.len();
    let value = pair.value.len();
    if key > FILE_LIMIT || value > FILE_LIMIT {
        return None;
    }
    let end = at + LENGTHS_SIZE as u64 + key + value + 2 * SLOT_SIZE as u64;
    if end > FILE_LIMIT { None } else { Some(end) }
}

// How many bytes the file for some entries has; None where they are more than those of the greatest file.
fn size_of(entries: &[Pair]) -> Option<u64>
    ensures some { IfSome result (λ size. (size ≡ length (spec.written entries.now)) × (size ≤ 67108864)) }
    ensures none { IfNone result (67108864 < length (spec.written entries.now)) }
{
    let mut size = HEADER_SIZE as u64;
    for pair in entries {
        let Some(end) = entry_end(size, pair) else {
            return None;
        };
        size = end;
    }
    Some(size)
}

/// Whether the file for some entries is no larger than a file may be.
pub(crate) fn fits(entries: &List<Pair>) -> bool
    ensures yes { result ≡ true → length (spec.written entries.now) ≤ 67108864 }
    ensures no { result ≡ false → 67108864 < length (spec.written entries.now) }
{
    size_of(entries.as_slice()).is_some()
}
