//! The lines that are printed, and the warnings.
ghost use Rattle.std.specs.Prelude.{◌≡◌, ◌++◌, IfOk, OnOk};
ghost use Rattle.pf_base.specs.Clauses.Unless.{Unless};
ghost use Rattle.pf_base.specs.Clauses.Faults.{as_fault};
ghost use Rattle.pf_tools.specs.Printed as spec;

use crate::asked::{is_known, is_shown};
use crate::values::value_shown;
use pf_base::{Bytes, ConfFault, NoMemory, add_line};
use pf_params::Known;
use pf_words::{ConfWords, Shape};
use std::alloc::Global;

// Adds a value with a blank before it; nothing where it is empty.
fn add_behind_sign(line: &mut Bytes, value: &[u8]) -> Result<(), NoMemory>
    ensures { OnOk result (line.new ≡ line.old ++ spec.behind_sign value.now) }
{
    if value.is_empty() {
        return Ok(());
    }
    line.push(b' ')?;
    line.extend(value)
}

// What is in a line of a name and its value.
fn line_text(alloc: Global, shape: Shape, name: &[u8], value: &[u8]) -> Result<Bytes, NoMemory>
    ensures { IfOk result (λ text. text ≡ spec.line_text shape name.now value.now) }
{
    let mut text = Bytes::new(alloc);
    match shape {
        Shape::Both => {
            text.extend(name)?;
            text.extend(b" =")?;
            add_behind_sign(&mut text, value)?;
        }
        Shape::Values => text.extend(value)?,
        Shape::Names => text.extend(name)?,
    }
    Ok(text)
}

// The line of a name that is shown; nothing of another one.
fn line_of(alloc: Global, words: &ConfWords, known: &Known, name: &[u8]) -> Result<Bytes, ConfFault>
    ensures { Unless result ConfFault.NoMemory (λ r. r ≡ as_fault (spec.line_of words.now known.now name.now)) }
{
    if !is_shown(words.mode, known, name) {
        return Ok(Bytes::new(alloc));
    }
    let value = value_shown(alloc, words, known, name)?;
    let mut line = line_text(alloc, words.shape, name, value.as_slice())?;
    line.push(b'\n')?;
    Ok(line)
}

/// The lines of names, or the first refusal of one.
pub(crate) fn lines_of(
    alloc: Global,
    words: &ConfWords,
    known: &Known,
    names: &[Bytes],
) -> Result<Bytes, ConfFault>
    ensures { Unless result ConfFault.NoMemory (λ r. r ≡ as_fault (spec.lines_of words.now known.now names.now)) }
{
    let mut lines = Bytes::new(alloc);
    for name in names {
        let line = line_of(alloc, words, known, name.as_slice())?;
        lines.extend(line.as_slice())?;
    }
    Ok(lines)
}

// Adds the warning of a name that is not known.
fn add_warning(
    alloc: Global,
    warnings: &mut Bytes,
    known: &Known,
    name: &[u8],
) -> Result<(), NoMemory>
    ensures { OnOk result (warnings.new ≡ warnings.old ++ spec.warning_of known.now name.now) }
{
    if is_known(known, name) {
        return Ok(());
    }
    let mut text = Bytes::new(alloc);
    text.extend_all(&[b"postgate: warning: ", name, b": unknown parameter"])?;
    add_line(warnings, text.as_slice())
}

/// The warnings of names.
pub(crate) fn warnings_of(alloc: Global, known: &Known, names: &[Bytes]) -> Result<Bytes, NoMemory>
    ensures { IfOk result (λ warnings. warnings ≡ spec.warnings_of known.now names.now) }
{
    let mut warnings = Bytes::new(alloc);
    for name in names {
        add_warning(alloc, &mut warnings, known, name.as_slice())?;
    }
    Ok(warnings)
}
