//! What a run does to the files, and what it is to write.
ghost use Rattle.std.specs.Prelude.{◌≡◌, ◌⊎◌, [], false, true, IfOk, OnErr};
ghost use Rattle.std.specs.Str.{IsUtf8};
ghost use Rattle.pf_base.specs.Outside.Objects.{log_text};
ghost use Rattle.pf_base.specs.Refusal.{refusal_line};
ghost use Rattle.pf_base.specs.declared.outside.status.TheConstants.{FILES_FAILED, REFUSED};
ghost use Rattle.pf_maincf.specs.File.{failed_line};
ghost use Rattle.pf_tools.specs.Course as spec;
ghost use Rattle.pf_tools.specs.Course.{Course as course};
ghost use Rattle.pf_tools.specs.Course.{Leaves, Unfinished};
ghost use Rattle.pf_tools.specs.Clauses.Reports.{IsEditReport, Reports};
ghost use Rattle.pf_words.specs.Postconf.{is_edit, sets_parameters};

use crate::file::file_said;
use crate::said::Said;
use pf_base::status::{DONE, FILES_FAILED, REFUSED, WARNED};
use pf_base::{Bytes, Files, NoMemory, OuterFault, Refused, Texts};
use pf_maincf::{FileFault, conf_name, failed_line};
use pf_words::ConfWords;
use std::alloc::Global;

/// What is to be written, and the status of the run then: done, done with a warning, refused, or since a call on the files failed.
#[derive(Debug, Drop)]
pub(crate) struct Report {
    pub(crate) texts: Texts,
    pub(crate) status: u8,
}

// The status of a run that has these warnings.
fn printed_status(warnings: &[u8]) -> u8
    ensures { result ≡ spec.printed_status warnings.now }
{
    match warnings {
        [] => DONE,
        _ => WARNED,
    }
}

// The report of lines and warnings.
fn printed_report(alloc: Global, lines: Bytes, warnings: Bytes) -> Report
    ensures { result ≡ record { texts = record { out = lines; mail = []; log = warnings }; status = spec.printed_status warnings } }
{
    let status = printed_status(warnings.as_slice());
    let texts = Texts {
        out: lines,
        mail: Bytes::new(alloc),
        log: warnings,
    };
    Report { texts, status }
}

// The report that has this line for the log alone.
fn log_report(alloc: Global, line: Bytes, status: u8) -> Report
    ensures { result ≡ record { texts = log_text line; status = status } }
{
    let mut texts = Texts::new(alloc);
    texts.log = line;
    Report { texts, status }
}

// The report of a refusal.
fn refused_report(alloc: Global, refusal: &Refused) -> Result<Report, NoMemory>
    ensures { IfOk result (λ report. report ≡ record { texts = log_text (refusal_line refusal.now); status = REFUSED }) }
{
    let line = refusal.line(alloc)?;
    Ok(log_report(alloc, line, REFUSED))
}

// The report of a call on the file that failed.
fn failed_report(alloc: Global, file: &[u8], call: &[u8]) -> Result<Report, NoMemory>
    ensures { IfOk result (λ report. report ≡ record { texts = log_text (failed_line file.now call.now); status = FILES_FAILED }) }
{
    let line = failed_line(alloc, file, call)?;
    Ok(log_report(alloc, line, FILES_FAILED))
}

// Puts an edited text in the place of the file.
fn edited_report<F: Files>(
    alloc: Global,
    file: &[u8],
    text: &[u8],
    files: &mut F,
) -> Result<Report, NoMemory>
    requires { IsUtf8 file.now }
    ensures report { IfOk result (IsEditReport file.now text.now (F.known files.old) (F.known files.new)) }
    ensures err { OnErr result (Leaves file.now (course.unreplaced text.now) (F.known files.old) (F.known files.new)
        ⊎ Leaves file.now (course.starves_editing text.now) (F.known files.old) (F.known files.new)) }
{
    let Ok(name) = str::from_utf8(file) else {
        unreachable!();
    };
    match files.replace(name, text) {
        Ok(()) => Ok(Report {
            texts: Texts::new(alloc),
            status: DONE,
        }),
        Err(OuterFault::Failed) => failed_report(alloc, file, b"replace"),
        Err(OuterFault::NoMemory) => Err(NoMemory),
    }
}

/// What a run does to the files, and what it is to write.
pub(crate) fn gather<F: Files>(
    alloc: Global,
    words: &ConfWords,
    files: &mut F,
) -> Result<Report, NoMemory>
    requires { sets_parameters words.now ≡ true }
    ensures ok { IfOk result (Reports words.now (F.known files.old) (F.known files.new)) }
    ensures err { OnErr result (Unfinished words.now (F.known files.old) (F.known files.new)) }
    ensures output { is_edit words.now.mode ≡ true → IfOk result (λ report. report.texts.out ≡ []) }
    ensures same { is_edit words.now.mode ≡ false → (F.known files.new).content ≡ (F.known files.old).content }
{
    let name = conf_name(alloc, &words.folder)?;
    let file = name.as_slice();
    match file_said(alloc, file, words, files) {
        Ok(Said::Printed { lines, warnings }) => Ok(printed_report(alloc, lines, warnings)),
        Ok(Said::Edited(text)) => edited_report(alloc, file, text.as_slice(), files),
        Err(FileFault::Refused(refusal)) => refused_report(alloc, &refusal),
        Err(FileFault::Failed) => failed_report(alloc, file, b"read"),
        Err(FileFault::NoMemory) => Err(NoMemory),
    }
}
