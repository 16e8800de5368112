//! What is said of main.cf as a file.
ghost use Rattle.std.specs.Prelude.{◌≡◌, ◌≢◌, List as Seq, Some, Err, true, IfOk};
ghost use Rattle.std.specs.Str.{IsUtf8};
ghost use Rattle.pf_base.specs.Outside.Known.{failed_tree};
ghost use Rattle.pf_base.specs.declared.pair.Pair.{Pair};
ghost use Rattle.pf_maincf.specs.Clauses.Faults.{Answers};
ghost use Rattle.pf_maincf.specs.File.{Kept, bytes_in};
ghost use Rattle.pf_tools.specs.Said as spec;
ghost use Rattle.pf_words.specs.Postconf.{is_edit, sets_parameters};

use crate::said::{Said, text_said};
use pf_base::{ConfFault, Files};
use pf_maincf::{FileFault, conf_text};
use pf_words::ConfWords;
use std::alloc::Global;

// What is said of a text.
fn read_said(alloc: Global, file: &[u8], words: &ConfWords, text: &[u8]) -> Result<Said, FileFault>
    requires { sets_parameters words.now ≡ true }
    ensures said { Answers (spec.text_said file.now words.now text.now) result }
    ensures edited { IfOk result (λ said. spec.is_edited said ≡ is_edit words.now.mode) }
    ensures files { result ≢ Err FileFault.Failed }
{
    let said = text_said(alloc, file, words, text)?;
    Ok(said)
}

/// What is said of the main.cf of this name; `Failed` comes only where the count of faults of `files` rose by one.
pub(crate) fn file_said<F: Files>(
    alloc: Global,
    file: &[u8],
    words: &ConfWords,
    files: &mut F,
) -> Result<Said, FileFault>
    requires { sets_parameters words.now ≡ true }
    ensures known { (all : Seq Pair) → (F.known files.old).content ≡ Some all
        → Answers (spec.file_said file.now words.now (bytes_in all file.now)) result }
    ensures edited { IfOk result (λ said. spec.is_edited said ≡ is_edit words.now.mode) }
    ensures text { IfOk result (λ said. IsUtf8 file.now) }
    ensures failed { result ≡ Err FileFault.Failed → Kept (failed_tree (F.known files.old)) (F.known files.new) }
    ensures kept { result ≢ Err FileFault.Failed → Kept (F.known files.old) (F.known files.new) }
{
    match conf_text(alloc, file, files) {
        Ok(text) => read_said(alloc, file, words, text.as_slice()),
        Err(fault) => Err(fault),
    }
}
