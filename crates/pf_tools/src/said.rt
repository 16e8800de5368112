//! What is said of a main.cf.
ghost use Rattle.std.specs.Prelude.{◌≡◌, true, false, IfOk};
ghost use Rattle.pf_base.specs.Clauses.Unless.{Unless};
ghost use Rattle.pf_base.specs.Clauses.Faults.{as_fault};
ghost use Rattle.pf_maincf.specs.Edit.{AreAssignments};
ghost use Rattle.pf_tools.specs.Asked.{asked_names};
ghost use Rattle.pf_tools.specs.Said as spec;
ghost use Rattle.pf_words.specs.Postconf.{are_edits, is_edit, is_over, sets_parameters};

use crate::asked::shown_names;
use crate::lines::{lines_of, warnings_of};
use pf_base::{Bytes, ConfFault, List, NoMemory};
use pf_maincf::{MainCf, Setting};
use pf_params::{Known, Settings};
use pf_words::{ConfMode, ConfWords, assignment_of_word, assignments_of_words};
use std::alloc::Global;

/// What is said of a main.cf: lines for the output and warnings for the log, or its text after an edit.
#[derive(Debug, Drop)]
pub(crate) enum Said {
    Printed { lines: Bytes, warnings: Bytes },
    Edited(Bytes),
}

// The lines and the warnings of names.
fn printed_of(
    alloc: Global,
    words: &ConfWords,
    known: &Known,
    names: &[Bytes],
) -> Result<Said, ConfFault>
    ensures is { Unless result ConfFault.NoMemory (λ r. r ≡ as_fault (spec.printed_of words.now known.now names.now)) }
    ensures edited { IfOk result (λ said. spec.is_edited said ≡ false) }
{
    let lines = lines_of(alloc, words, known, names)?;
    let warnings = warnings_of(alloc, known, names)?;
    Ok(Said::Printed { lines, warnings })
}

// The lines and the warnings of the names that are asked for.
fn asked(alloc: Global, words: &ConfWords, known: &Known) -> Result<Said, ConfFault>
    ensures is { Unless result ConfFault.NoMemory (λ r. r ≡ as_fault (spec.printed_of words.now known.now (asked_names words.now known.now))) }
    ensures edited { IfOk result (λ said. spec.is_edited said ≡ false) }
{
    match words.rest.as_slice() {
        [] => {
            let names = shown_names(alloc, words.mode, known)?;
            printed_of(alloc, words, known, names.as_slice())
        }
        names => printed_of(alloc, words, known, names),
    }
}

// The setting of the word of `-o`, if there is one.
fn over_of(alloc: Global, over: &Option<Bytes>) -> Result<List<Setting>, NoMemory>
    requires { is_over over.now ≡ true }
    ensures { IfOk result (λ settings. settings ≡ spec.over_of over.now) }
{
    let mut settings = List::new(alloc);
    if let Some(word) = over {
        match assignment_of_word(alloc, word.as_slice())? {
            Some(setting) => settings.push(setting)?,
            None => unreachable!(),
        }
    }
    Ok(settings)
}

// The settings of the words of an edit.
fn edits_of(alloc: Global, words: &[Bytes]) -> Result<List<Setting>, NoMemory>
    requires { are_edits words.now ≡ true }
    ensures is { IfOk result (λ settings. settings ≡ spec.edits_of words.now) }
    ensures sets { IfOk result AreAssignments }
{
    match assignments_of_words(alloc, words)? {
        Some(settings) => Ok(settings),
        None => unreachable!(),
    }
}

// What is printed of a main.cf.
#[tactic(auto, unfolding(crate::specs::Said::printed))]
fn printed(alloc: Global, file: &[u8], words: &ConfWords, text: &[u8]) -> Result<Said, ConfFault>
    requires { is_over words.now.over ≡ true }
    ensures is { Unless result ConfFault.NoMemory (λ r. r ≡ as_fault (spec.printed file.now words.now text.now)) }
    ensures edited { IfOk result (λ said. spec.is_edited said ≡ false) }
{
    let main = MainCf::read(alloc, file, text)?;
    let over = over_of(alloc, &words.over)?;
    let settings = Settings::new(alloc, &main, &over)?;
    asked(alloc, words, settings.known())
}

// The text of a main.cf after an edit.
#[tactic(auto, unfolding(crate::specs::Said::edited_by))]
fn edited_by(alloc: Global, file: &[u8], words: &ConfWords, text: &[u8]) -> Result<Said, ConfFault>
    requires { are_edits words.now.rest ≡ true }
    ensures is { Unless result ConfFault.NoMemory (λ r. r ≡ as_fault (spec.edited_by file.now words.now text.now)) }
    ensures edited { IfOk result (λ said. spec.is_edited said ≡ true) }
{
    let edits = edits_of(alloc, words.rest.as_slice())?;
    let new = MainCf::edit(alloc, file, text, &edits)?;
    Ok(Said::Edited(new))
}

/// What is said of a main.cf of this name and this text.
pub(crate) fn text_said(
    alloc: Global,
    file: &[u8],
    words: &ConfWords,
    text: &[u8],
) -> Result<Said, ConfFault>
    requires { sets_parameters words.now ≡ true }
    ensures is { Unless result ConfFault.NoMemory (λ r. r ≡ as_fault (spec.text_said file.now words.now text.now)) }
    ensures edited { IfOk result (λ said. spec.is_edited said ≡ is_edit words.now.mode) }
{
    match words.mode {
        ConfMode::Edit => edited_by(alloc, file, words, text),
        ConfMode::All | ConfMode::Set | ConfMode::Defaults => printed(alloc, file, words, text),
    }
}
