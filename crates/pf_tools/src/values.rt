//! The values that are shown of names.
ghost use Rattle.std.specs.Prelude.{◌≡◌, IfOk};
ghost use Rattle.std.specs.Option.{option_copied, option_map_or};
ghost use Rattle.pf_base.specs.Clauses.Meant.{meant};
ghost use Rattle.pf_base.specs.Clauses.Unless.{Unless};
ghost use Rattle.pf_base.specs.declared.meaning.Meaning.TheVariants.{Is};
ghost use Rattle.pf_base.specs.Clauses.Faults.{as_fault};
ghost use Rattle.pf_params.specs.Parameters.{refusal_of};
ghost use Rattle.pf_params.specs.Settled as settled;
ghost use Rattle.pf_params.specs.Sources as sources;
ghost use Rattle.pf_tools.specs.Values as spec;

use pf_base::{Bytes, ConfFault, Meaning, NoMemory, Refused};
use pf_catalogue::param;
use pf_expand::Flaw;
use pf_maincf::Setting;
use pf_params::{Known, cause_of};
use pf_words::{ConfMode, ConfWords, Shape};
use std::alloc::Global;

// What a name stands for by default.
fn default_value_of(name: &[u8]) -> Meaning<&'static [u8], &'static [u8]>
    ensures { meant result ≡ sources.default_value_of name.now }
{
    match param(name) {
        None => Meaning::Is(b""),
        Some(p) => p.row().2,
    }
}

// The setting of a name that counts.
fn counting<'a>(mode: ConfMode, known: &'a Known, name: &[u8]) -> Option<&'a Setting>
    ensures { spec.source_in mode known.now name.now ≡ option_map_or (λ s. Is s.value) (option_copied result) (sources.default_value_of name.now) }
{
    match mode {
        ConfMode::Defaults => None,
        _ => known.last(name),
    }
}

// What a name stands for.
fn meaning_of<'a>(mode: ConfMode, known: &'a Known, name: &[u8]) -> Meaning<&'a [u8], &'a [u8]>
    ensures { meant result ≡ spec.source_in mode known.now name.now }
{
    match counting(mode, known, name) {
        None => default_value_of(name),
        Some(setting) => Meaning::Is(setting.value.as_slice()),
    }
}

// What is shown of a text.
fn text_shown(
    alloc: Global,
    known: &Known,
    expanded: bool,
    text: &[u8],
) -> Result<Result<Bytes, Flaw>, NoMemory>
    ensures { IfOk result (λ value. value ≡ spec.shown expanded known.now (Is text.now)) }
{
    if expanded {
        return known.meaning_value(alloc, Meaning::Is(text));
    }
    let text = Bytes::from_slice(alloc, text)?;
    Ok(Ok(text))
}

// What is shown of what a name stands for.
fn shown(
    alloc: Global,
    known: &Known,
    expanded: bool,
    meaning: Meaning<&[u8], &[u8]>,
) -> Result<Result<Bytes, Flaw>, NoMemory>
    ensures { IfOk result (λ value. value ≡ spec.shown expanded known.now (meant meaning.entry)) }
{
    match meaning {
        Meaning::Is(text) => text_shown(alloc, known, expanded, text),
        Meaning::DomainOf(host) => known.meaning_value(alloc, Meaning::DomainOf(host)),
    }
}

// The line of the setting that is shown of a name; a default is in none.
fn line_in(mode: ConfMode, known: &Known, name: &[u8]) -> u64
    ensures { result ≡ spec.line_in mode known.now name.now }
{
    match mode {
        ConfMode::Defaults => 0,
        _ => known.line(name),
    }
}

// The refusal of the setting that is shown of a name.
fn refusal_shown(
    alloc: Global,
    mode: ConfMode,
    known: &Known,
    name: &[u8],
    flaw: Flaw,
) -> Result<Refused, NoMemory>
    ensures { IfOk result (λ refusal. refusal ≡ record (refusal_of known.now name.now (settled.cause_of flaw)) { line = spec.line_in mode known.now name.now }) }
{
    let mut refusal = known.refusal(alloc, name, cause_of(flaw))?;
    refusal.line = line_in(mode, known, name);
    Ok(refusal)
}

// The value of a name, or the refusal of the setting that is shown.
fn named_value(
    alloc: Global,
    words: &ConfWords,
    known: &Known,
    name: &[u8],
) -> Result<Result<Bytes, Refused>, NoMemory>
    ensures { IfOk result (λ value. value ≡ spec.named_value words.now known.now name.now) }
{
    let meaning = meaning_of(words.mode, known, name);
    match shown(alloc, known, words.expanded, meaning)? {
        Ok(value) => Ok(Ok(value)),
        Err(flaw) => Ok(Err(refusal_shown(alloc, words.mode, known, name, flaw)?)),
    }
}

/// The value that is printed of a name, or the refusal of the setting that is shown, of a default with line 0; nothing where names alone are printed.
pub(crate) fn value_shown(
    alloc: Global,
    words: &ConfWords,
    known: &Known,
    name: &[u8],
) -> Result<Bytes, ConfFault>
    ensures { Unless result ConfFault.NoMemory (λ r. r ≡ as_fault (spec.value_shown words.now known.now name.now)) }
{
    if words.shape == Shape::Names {
        return Ok(Bytes::new(alloc));
    }
    match named_value(alloc, words, known, name)? {
        Ok(value) => Ok(value),
        Err(refusal) => Err(ConfFault::Refused(refusal)),
    }
}
