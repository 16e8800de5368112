//! A setting of main.cf.
ghost use Rattle.std.specs.Prelude.{◌≡◌, ◌==◌, IfOk};
ghost use Rattle.std.specs.List.{list_all, position};
ghost use Rattle.pf_base.specs.Text.Ascii as ascii;
ghost use Rattle.pf_maincf.specs.Settings as settings;

use pf_base::{Bytes, Logical, NoMemory, trimmed};
use std::alloc::Global;

/// A name with its value, both without space at their ends, and the number of the line, from 1, at which it begins.
#[derive(Debug, PartialEq, Eq, Drop)]
pub struct Setting {
    pub line: u64,
    pub name: Bytes,
    pub value: Bytes,
}

fn is_name_byte(b: u8) -> bool
    ensures { result ≡ settings.is_name_byte b }
{
    33 <= b && b <= 126 && !(b == b'$' || b == b'(' || b == b')' || b == b'{' || b == b'}')
}

fn has_name_bytes(name: &[u8]) -> bool
    ensures { result ≡ list_all settings.is_name_byte name.now }
{
    name.iter().all(|b| is_name_byte(*b))
}

/// Whether a text is a parameter's name: not empty, of bytes from 33 to 126, and none of them `$`, `{`, `}`, `(` or `)`
/// (postconf(5); which bytes a name may hold is postgate's own).
pub fn is_name(name: &[u8]) -> bool
    ensures { result ≡ settings.is_name name.now }
{
    0 < name.len() && has_name_bytes(name)
}

// The place of the first equals sign.
fn equals_sign(text: &[u8]) -> Option<usize>
    ensures { result ≡ position (λ b. b == ascii.equals_sign) text.now }
{
    text.iter().position(|b| *b == b'=')
}

// The setting of a logical line; None where it has no equals sign.
pub(crate) fn setting_of(alloc: Global, logical: &Logical) -> Result<Option<Setting>, NoMemory>
    ensures { IfOk result (λ setting. setting ≡ settings.setting_of logical.now) }
{
    let text = logical.text.as_slice();
    match equals_sign(text) {
        None => Ok(None),
        Some(place) => {
            let name = Bytes::from_slice(alloc, trimmed(&text[..place]))?;
            let value = Bytes::from_slice(alloc, trimmed(&text[place + 1..]))?;
            Ok(Some(Setting {
                line: logical.line,
                name,
                value,
            }))
        }
    }
}
