//! Settings of the four switches, as rows write them.
use pf_base::{Bytes, NoMemory};
use pf_class::Rules;
use std::alloc::Global;

/// How many settings there are.
pub(crate) const SETTINGS: u64 = 16;

// Whether a switch that is set so is as a row says.
fn is_switched(on: bool, said: u8) -> bool {
    said == b'.' || (said == b'1') == on
}

/// Whether setting `n`, its switches the bits of a number from the highest, is one that a row speaks of.
pub(crate) fn is_meant(n: u64, switches: &[u8]) -> bool {
    match switches {
        [swap, percent, origin, dot] => {
            is_switched(n / 8 % 2 == 1, *swap)
                && is_switched(n / 4 % 2 == 1, *percent)
                && is_switched(n / 2 % 2 == 1, *origin)
                && is_switched(n % 2 == 1, *dot)
        }
        _ => false,
    }
}

/// The rules of setting `n`.
pub(crate) fn rules(alloc: Global, n: u64) -> Result<Rules, NoMemory> {
    Ok(Rules {
        swap_bangpath: n / 8 % 2 == 1,
        allow_percent_hack: n / 4 % 2 == 1,
        append_at_myorigin: n / 2 % 2 == 1,
        append_dot_mydomain: n % 2 == 1,
        myorigin: Bytes::from_slice(alloc, b"origin.test")?,
        mydomain: Bytes::from_slice(alloc, b"my.test")?,
    })
}
