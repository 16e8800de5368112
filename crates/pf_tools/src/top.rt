//! The top call.
ghost use Rattle.std.specs.Prelude.{◌≡◌, true};
ghost use Rattle.pf_base.specs.Outside.Objects.{objects};
ghost use Rattle.pf_base.specs.Outside.Known.{Input, Output};
ghost use Rattle.pf_tools.specs.Run.{PostconfRun};
ghost use Rattle.pf_words.specs.Postconf.{sets_parameters};

use crate::report::gather;
use crate::say::say;
use pf_base::status::NO_MEMORY;
use pf_base::{Files, Sink, status_after};
use pf_words::ConfWords;
use std::alloc::Global;

/// Runs postconf: `words` are its words, main.cf is read from `files` and, in an edit, replaced there, the settings go to
/// `out` and what is warned of or refused to `log`. It answers the exit status: done, a name is not known, main.cf is
/// refused, or no memory; those of `out`, `log` and `files` come only where their count rose. The statuses are postgate's own.
pub fn postconf<F: Files, O: Sink, J: Sink>(
    alloc: Global,
    words: &ConfWords,
    files: &mut F,
    out: &mut O,
    log: &mut J,
) -> u8
    requires { sets_parameters words.now ≡ true }
    ensures { (input : Input) (mail : Output) → PostconfRun words.now
        (objects input (O.known out.old) mail (J.known log.old) (F.known files.old))
        (objects input (O.known out.new) mail (J.known log.new) (F.known files.new)) result }
{
    let Ok(report) = gather(alloc, words, files) else {
        return NO_MEMORY;
    };
    status_after(report.status, say(&report.texts, out, log))
}
