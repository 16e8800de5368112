//! Texts as a client or a log sees them: control bytes, those below 32 and 127, are question marks, so that no text goes on after its
//! line.
ghost use Rattle.std.specs.Prelude.{◌≡◌, ◌++◌, OnErr, OnOk};
ghost use Rattle.pf_base.specs.Clauses.Prefixes.{AddsPrefix};
ghost use Rattle.pf_base.specs.Text.Printing as printing;

use crate::bytes::Bytes;
use crate::fault::NoMemory;

/// Adds bytes, control bytes as question marks. Where there is no memory, a prefix of them may have been added.
pub fn add_printed(text: &mut Bytes, bytes: &[u8]) -> Result<(), NoMemory>
    ensures ok { OnOk result (text.new ≡ text.old ++ printing.printed bytes.now) }
    ensures err { OnErr result (AddsPrefix text.old text.new (printing.printed bytes.now)) }
{
    for b in bytes {
        let shown = if *b < 32 || *b == 127 { b'?' } else { *b };
        text.push(shown)?;
    }
    Ok(())
}

/// Adds a line of a log: its bytes, control bytes as question marks, and a line feed. Where there is no memory, a prefix of it may
/// have been added.
#[tactic(auto, unfolding(crate::specs::Text::Printing::printed_line))]
pub fn add_line(text: &mut Bytes, bytes: &[u8]) -> Result<(), NoMemory>
    ensures ok { OnOk result (text.new ≡ text.old ++ printing.printed_line bytes.now) }
    ensures err { OnErr result (AddsPrefix text.old text.new (printing.printed_line bytes.now)) }
{
    add_printed(text, bytes)?;
    text.push(b'\n')?;
    Ok(())
}
