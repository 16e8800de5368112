//! Keys in lower case.
ghost use Rattle.std.specs.Prelude.{◌≡◌, IfOk};
ghost use Rattle.pf_base.specs.Text.Names as names;

use crate::bytes::Bytes;
use crate::fault::NoMemory;
use std::alloc::Global;

/// A key with its letters A to Z as small ones, as lookups compare keys (DATABASE_README).
pub fn fold(alloc: Global, key: &[u8]) -> Result<Bytes, NoMemory>
    ensures { IfOk result (λ folded. folded ≡ names.folded key.now) }
{
    let mut folded = Bytes::new(alloc);
    for b in key {
        folded.push(b.to_ascii_lowercase())?;
    }
    Ok(folded)
}
