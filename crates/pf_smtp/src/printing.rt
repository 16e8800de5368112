//! Texts that are printed in parts.
ghost use Rattle.std.specs.Prelude.{◌≡◌, ◌++◌, OnOk};
ghost use Rattle.std.specs.List.{flat_map};
ghost use Rattle.pf_base.specs.Text.Printing.{printed};

use pf_base::{Bytes, NoMemory, add_printed};

/// Adds the parts of a text in turn, control bytes as question marks.
pub(crate) fn add_all_printed(text: &mut Bytes, parts: &[&[u8]]) -> Result<(), NoMemory>
    ensures { OnOk result (text.new ≡ text.old ++ printed (flat_map (λ part. part.now) parts.now)) }
{
    for part in parts {
        add_printed(text, part)?;
    }
    Ok(())
}
