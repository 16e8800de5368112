//! Words that set a parameter, `name=value`.
ghost use Rattle.std.specs.Prelude.{◌≡◌, ◌==◌, IfOk, IfSome};
ghost use Rattle.std.specs.List.{position};
ghost use Rattle.pf_base.specs.Text.Ascii as ascii;
ghost use Rattle.pf_maincf.specs.Edit.{AreAssignments};
ghost use Rattle.pf_words.specs.Assignments as sets;

use pf_base::{Bytes, List, NoMemory};
use pf_maincf::{Setting, are_assignments, is_writable};
use std::alloc::Global;

// The place of the first equals sign.
fn equals_sign(word: &[u8]) -> Option<usize>
    ensures { result ≡ position (λ b. b == ascii.equals_sign) word.now }
{
    word.iter().position(|b| *b == b'=')
}

/// The setting of a word `name=value`, which is cut at its first `=`; it has the line 0. None where the word has no `=`, and where an edit
/// can't write the setting: the name is none or begins with `#`, or the value has space at an end, holds a line feed, or ends in a carriage
/// return (postconf(1), -e; postconf(5), main.cf format).
#[tactic(auto, unfolding(crate::specs::Assignments::assignment_of_word))]
pub fn assignment_of_word(alloc: Global, word: &[u8]) -> Result<Option<Setting>, NoMemory>
    ensures { IfOk result (λ setting. setting ≡ sets.assignment_of_word word.now) }
{
    let Some(place) = equals_sign(word) else {
        return Ok(None);
    };
    let set = Setting {
        line: 0,
        name: Bytes::from_slice(alloc, &word[..place])?,
        value: Bytes::from_slice(alloc, &word[place + 1..])?,
    };
    if is_writable(&set) {
        Ok(Some(set))
    } else {
        Ok(None)
    }
}

fn all_settings(alloc: Global, words: &[Bytes]) -> Result<Option<List<Setting>>, NoMemory>
    ensures { IfOk result (λ settings. settings ≡ sets.all_of sets.assignment_of_word words.now) }
{
    let mut settings = List::new(alloc);
    for word in words {
        match assignment_of_word(alloc, word.as_slice())? {
            None => return Ok(None),
            Some(setting) => settings.push(setting)?,
        }
    }
    Ok(Some(settings))
}

/// The settings of words `name=value` in their order, each with the line 0; None where one of the words is none, or two of them have one
/// name (postconf(1), -e). They are what `MainCf::edit` takes.
#[tactic(auto, unfolding(crate::specs::Assignments::assignments_of_words))]
pub fn assignments_of_words(
    alloc: Global,
    words: &[Bytes],
) -> Result<Option<List<Setting>>, NoMemory>
    ensures is { IfOk result (λ settings. settings ≡ sets.assignments_of_words words.now) }
    ensures sets { IfOk result (λ settings. IfSome settings AreAssignments) }
{
    let Some(settings) = all_settings(alloc, words)? else {
        return Ok(None);
    };
    if are_assignments(&settings) {
        Ok(Some(settings))
    } else {
        Ok(None)
    }
}
