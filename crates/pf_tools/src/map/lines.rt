//! The lines that postmap prints.
ghost use Rattle.std.specs.Prelude.{◌≡◌, ◌++◌, IfOk, OnOk};
ghost use Rattle.pf_tools.specs.Map.Lines as spec;

use pf_base::{Bytes, NoMemory, Pair};
use std::alloc::Global;

/// The line of a value; of none nothing.
pub(crate) fn value_line(alloc: Global, value: &Option<Bytes>) -> Result<Bytes, NoMemory>
    ensures { IfOk result (λ line. line ≡ spec.value_line value.now) }
{
    match value {
        None => Ok(Bytes::new(alloc)),
        Some(value) => {
            let mut line = value.copy(alloc)?;
            line.push(b'\n')?;
            Ok(line)
        }
    }
}

/// Adds the line of a pair.
pub(crate) fn add_pair_line(text: &mut Bytes, key: &[u8], value: &[u8]) -> Result<(), NoMemory>
    ensures { OnOk result (text.new ≡ text.old ++ spec.pair_line key.now value.now) }
{
    text.extend(key)?;
    text.push(b'\t')?;
    text.extend(value)?;
    text.push(b'\n')
}

/// The lines of pairs.
pub(crate) fn pair_lines(alloc: Global, pairs: &[Pair]) -> Result<Bytes, NoMemory>
    ensures { IfOk result (λ lines. lines ≡ spec.pair_lines pairs.now) }
{
    let mut lines = Bytes::new(alloc);
    for pair in pairs {
        add_pair_line(&mut lines, pair.key.as_slice(), pair.value.as_slice())?;
    }
    Ok(lines)
}
