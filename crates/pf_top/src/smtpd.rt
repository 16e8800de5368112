//! A run of smtpd: main.cf, and a session from the input to its end.
ghost use Rattle.std.specs.Prelude.{◌≡◌, ◌≢◌, List as Seq, Some, Err, IfOk, codes};
ghost use Rattle.pf_base.specs.Outside.Objects.{Says, log_text, objects, sinks};
ghost use Rattle.pf_base.specs.Refusal.{refusal_line};
ghost use Rattle.pf_base.specs.Outside.Known.{Output, failed_tree};
ghost use Rattle.pf_base.specs.Clauses.Unless.{Unless};
ghost use Rattle.pf_base.specs.declared.pair.Pair.{Pair};
ghost use Rattle.pf_maincf.specs.Clauses.Faults.{Answers};
ghost use Rattle.pf_maincf.specs.File.{Kept, bytes_in, failed_line};
ghost use Rattle.pf_top.specs.Refusals.{file_opened};
ghost use Rattle.pf_top.specs.Refusals as refusals;
ghost use Rattle.pf_top.specs.Smtpd as spec;
ghost use Rattle.pf_top.specs.Smtpd.{SmtpdRun};

use crate::opening::{Opening, text_opened};
use crate::session_loop::{Ended, LoopFault, run_session};
use pf_base::status::{AT_BUDGET, DONE, FILES_FAILED, INPUT_FAILED, NO_MEMORY, REFUSED};
use pf_base::{ConfFault, Files, Refused, Sink, SinkFault, Source, status_after, write_log};
use pf_maincf::{FileFault, conf_name, conf_text, failed_line};
use pf_words::SmtpdWords;
use std::alloc::Global;

// What a main.cf of this name says that was read.
fn read_opened(alloc: Global, file: &[u8], text: &[u8]) -> Result<Opening, FileFault>
    ensures known { Answers (refusals.text_opened file.now text.now) result }
    ensures files { result ≢ Err FileFault.Failed }
{
    let opening = text_opened(alloc, file, text)?;
    Ok(opening)
}

// What main.cf says, or its first refusal, where it could be read.
fn open_conf<F: Files>(alloc: Global, file: &[u8], files: &mut F) -> Result<Opening, FileFault>
    ensures known { (all : Seq Pair) → (F.known files.old).content ≡ Some all → Answers (file_opened file.now (bytes_in all file.now)) result }
    ensures failed { result ≡ Err FileFault.Failed → Kept (failed_tree (F.known files.old)) (F.known files.new) }
    ensures kept { result ≢ Err FileFault.Failed → Kept (F.known files.old) (F.known files.new) }
{
    match conf_text(alloc, file, files) {
        Ok(text) => read_opened(alloc, file, text.as_slice()),
        Err(fault) => Err(fault),
    }
}

// Says why main.cf is not accepted.
fn say_refused<J: Sink>(alloc: Global, refusal: &Refused, log: &mut J) -> Result<(), SinkFault>
    ensures { (out mail : Output) → Says (sinks out mail (J.known log.old)) (sinks out mail (J.known log.new)) (log_text (refusal_line refusal.now)) result }
{
    let line = refusal.line(alloc)?;
    write_log(log, line.as_slice())
}

// Says that main.cf could not be read.
fn say_unread<J: Sink>(alloc: Global, file: &[u8], log: &mut J) -> Result<(), SinkFault>
    ensures { (out mail : Output) → Says (sinks out mail (J.known log.old)) (sinks out mail (J.known log.new)) (log_text (failed_line file.now (codes "read"))) result }
{
    let line = failed_line(alloc, file, b"read")?;
    write_log(log, line.as_slice())
}

// The status of a session that came to its end.
fn ended_status(ended: Ended) -> u8
    ensures { result ≡ spec.ended_status ended }
{
    match ended {
        Ended::AtEnd => DONE,
        Ended::AtOver => DONE,
        Ended::AtBudget => AT_BUDGET,
    }
}

// The status of a session.
fn loop_status(served: Result<Ended, LoopFault>) -> u8
    ensures { result ≡ spec.loop_status served }
{
    match served {
        Ok(ended) => ended_status(ended),
        Err(LoopFault::Input) => INPUT_FAILED,
        Err(LoopFault::Sink(fault)) => fault.status(),
    }
}

/// Runs smtpd: main.cf is read from `files`, the session's bytes come from `input`, the replies go to `out`, the record of
/// messages to `mail`, and the decisions to `log`. It answers the exit status.
pub(crate) fn run_smtpd<S: Source, O: Sink, M: Sink, J: Sink, F: Files>(
    alloc: Global,
    words: &SmtpdWords,
    input: &mut S,
    out: &mut O,
    mail: &mut M,
    log: &mut J,
    files: &mut F,
) -> u8
    ensures { SmtpdRun words.now
        (objects (S.known input.old) (O.known out.old) (M.known mail.old) (J.known log.old) (F.known files.old))
        (objects (S.known input.new) (O.known out.new) (M.known mail.new) (J.known log.new) (F.known files.new)) result }
{
    let Ok(name) = conf_name(alloc, &words.folder) else {
        return NO_MEMORY;
    };
    let file = name.as_slice();
    match open_conf(alloc, file, files) {
        Ok(opening) => {
            let (client, budget) = (words.client, words.budget);
            loop_status(run_session(alloc, opening, client, budget, input, out, mail, log))
        }
        Err(FileFault::Refused(refusal)) => status_after(
            REFUSED,
            say_refused(alloc, &refusal, log),
        ),
        Err(FileFault::Failed) => status_after(FILES_FAILED, say_unread(alloc, file, log)),
        Err(FileFault::NoMemory) => NO_MEMORY,
    }
}
