//! The top call.
ghost use Rattle.std.specs.Prelude.{map};
ghost use Rattle.std.specs.String.{string_bytes};
ghost use Rattle.pf_base.specs.Outside.Objects.{Says, log_text, objects, sinks};
ghost use Rattle.pf_base.specs.Outside.Known.{Output};
ghost use Rattle.pf_top.specs.Run.{Leaves, usage_line};
ghost use Rattle.pf_words.specs.Words as spec;

use crate::smtpd::run_smtpd;
use pf_base::status::{NO_MEMORY, USAGE};
use pf_base::{Files, NoMemory, Sink, SinkFault, Source, status_after, write_log};
use pf_pcre::Patterns;
use pf_tools::{postconf, postmap};
use pf_words::{Words, words_of};
use std::alloc::Global;

// Says how the program is used.
#[tactic(auto, unfolding(crate::specs::Run::usage_line))]
fn say_usage<J: Sink>(log: &mut J) -> Result<(), SinkFault>
    ensures { (out mail : Output) → Says (sinks out mail (J.known log.old)) (sinks out mail (J.known log.new)) (log_text usage_line) result }
{
    write_log(
        log,
        b"usage: postgate smtpd|relaycheck|postconf|postmap|workload\n",
    )
}

/// Runs a command: `words` are the program's words without its own name. For smtpd the session's bytes come from `input`, the
/// replies go to `out`, the record of messages to `mail`, the decisions to `log`, and main.cf is read from `files`; for
/// postconf main.cf is read from `files` and in an edit replaced there, the settings go to `out` and the warnings to `log`; for postmap
/// a table is read from `files`, keys come from `input` where they are asked for, and values and pairs go to `out`. `patterns`
/// builds the patterns of postmap's tables and counts the one for whose size a table is refused; the other commands leave it. It
/// answers the exit status, which is one of `pf_base::status`; those of the objects come only where the count of `input`, `out`,
/// `mail`, `log` or `files` rose by one. No verb of today gives a record line.
pub fn run<S: Source, O: Sink, M: Sink, J: Sink, F: Files>(
    alloc: Global,
    words: &[String],
    input: &mut S,
    out: &mut O,
    mail: &mut M,
    log: &mut J,
    files: &mut F,
    patterns: &mut Patterns,
) -> u8
    ensures { Leaves (spec.words_of (map string_bytes words.now))
        (objects (S.known input.old) (O.known out.old) (M.known mail.old) (J.known log.old) (F.known files.old))
        (objects (S.known input.new) (O.known out.new) (M.known mail.new) (J.known log.new) (F.known files.new)) patterns.old patterns.new result }
{
    match words_of(alloc, words) {
        Ok(Some(Words::Smtpd(words))) => run_smtpd(alloc, &words, input, out, mail, log, files),
        Ok(Some(Words::Postconf(words))) => postconf(alloc, &words, files, out, log),
        Ok(Some(Words::Postmap(words))) => postmap(alloc, &words, input, files, patterns, out, log),
        Ok(None) => status_after(USAGE, say_usage(log)),
        Err(NoMemory) => NO_MEMORY,
    }
}
