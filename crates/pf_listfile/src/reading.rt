//! The items of the text of a list file.
ghost use Rattle.std.specs.Prelude.{◌≡◌, IfOk};
ghost use Rattle.pf_base.specs.Clauses.Faults.{as_fault};
ghost use Rattle.pf_base.specs.Clauses.Unless.{Unless};
ghost use Rattle.pf_base.specs.Text.Logical.{grouped, physical_lines};
ghost use Rattle.pf_table.specs.Text.{lines_in};
ghost use Rattle.pf_listfile.specs.Clauses.Adding.{behind, when};
ghost use Rattle.pf_listfile.specs.ListFile as spec;

use crate::item::{Item, item_of};
use pf_base::{
    Bytes, Cause, ConfFault, List, Logical, NoMemory, TextFault, WordsFault, logical_lines, refuse,
    words_of,
};
use std::alloc::Global;

// Adds the items of words; false where a word is none.
fn add_words(alloc: Global, words: &[Bytes], items: &mut List<Item>) -> Result<bool, NoMemory>
    ensures { IfOk result (λ are. behind items.old (spec.items_in words.now) ≡ when are items.new) }
{
    for word in words {
        match item_of(alloc, word.as_slice())? {
            None => return Ok(false),
            Some(item) => items.push(item)?,
        }
    }
    Ok(true)
}

// Adds the items of a line; false where it has something else.
fn add_line(alloc: Global, text: &[u8], items: &mut List<Item>) -> Result<bool, NoMemory>
    ensures { IfOk result (λ are. behind items.old (spec.line_items text.now) ≡ when are items.new) }
{
    match words_of(alloc, text) {
        Ok(words) => add_words(alloc, words.as_slice(), items),
        Err(WordsFault::Unbalanced { at: _ }) => Ok(false),
        Err(WordsFault::NoMemory) => Err(NoMemory),
    }
}

fn lines_of(alloc: Global, file: &[u8], text: &[u8]) -> Result<List<Logical>, ConfFault>
    ensures { Unless result ConfFault.NoMemory (λ r. r ≡ as_fault (lines_in file.now (grouped (physical_lines text.now)))) }
{
    match logical_lines(alloc, text) {
        Ok(lines) => Ok(lines),
        Err(TextFault::Continuation { line }) => Err(refuse(alloc, file, line, Cause::C1, &[])),
        Err(TextFault::NoMemory) => Err(ConfFault::NoMemory),
    }
}

// The items of lines, or the refusal of the first one that has something else.
fn lines_items(alloc: Global, file: &[u8], lines: &[Logical]) -> Result<List<Item>, ConfFault>
    ensures { Unless result ConfFault.NoMemory (λ r. r ≡ as_fault (spec.lines_items file.now lines.now)) }
{
    let mut items = List::new(alloc);
    for logical in lines {
        if !add_line(alloc, logical.text.as_slice(), &mut items)? {
            return Err(refuse(alloc, file, logical.line, Cause::C11, b"item"));
        }
    }
    Ok(items)
}

/// The items of the text of a file with this name, or its refusal.
#[tactic(auto, unfolding(crate::specs::ListFile::items_of))]
pub(crate) fn items_of(alloc: Global, file: &[u8], text: &[u8]) -> Result<List<Item>, ConfFault>
    ensures { Unless result ConfFault.NoMemory (λ r. r ≡ as_fault (spec.items_of file.now text.now)) }
{
    let lines = lines_of(alloc, file, text)?;
    lines_items(alloc, file, lines.as_slice())
}
