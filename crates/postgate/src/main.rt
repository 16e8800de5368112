//! postgate: hands the words of the process and the real objects to the top call.
#![tactic(auto)]

use pf_base::{OuterFault, Sink};
use pf_pcre::Patterns;
use pf_real::{FileSink, Reading, RealFiles, Writing, take_up};
use pf_top::{run, sink_names};
use std::alloc::Global;
use std::env;
use std::io::ErrorKind;
use std::process::ExitCode;

// The statuses that are answered before the top call.
const USAGE: u8 = 2;

const INPUT_FAILED: u8 = 4;

const OUTPUT_FAILED: u8 = 5;

const LOG_FAILED: u8 = 7;

const NO_MEMORY: u8 = 9;

// Words that are no text are no well-formed command; the kit tells them apart from lack of memory.
fn answer_fault(rt: &HostRuntime, kind: ErrorKind) -> u8 {
    if kind == ErrorKind::OutOfMemory {
        return NO_MEMORY;
    }
    match Writing::new(rt.stderr()).write(
        b"usage: postgate smtpd|relaycheck|postconf|postmap|workload\n",
    ) {
        Ok(()) => USAGE,
        Err(OuterFault::Failed) => LOG_FAILED,
        Err(OuterFault::NoMemory) => NO_MEMORY,
    }
}

// Runs the command of these words on the real objects, with this record of messages and this log.
fn answer_with<J: Sink>(
    rt: &HostRuntime,
    alloc: Global,
    words: &[String],
    mail: &mut FileSink<'_>,
    log: &mut J,
) -> u8 {
    let mut input = Reading::new(rt.stdin());
    let mut out = Writing::new(rt.stdout());
    let mut files = RealFiles::new(rt);
    let mut patterns = Patterns::new();
    run(
        alloc,
        words,
        &mut input,
        &mut out,
        mail,
        log,
        &mut files,
        &mut patterns,
    )
}

// Runs the command of these words; the log is the file that they name, or standard error.
fn answer(rt: &HostRuntime, alloc: Global, words: &[String]) -> u8 {
    let Ok(names) = sink_names(alloc, words) else {
        return NO_MEMORY;
    };
    let mut mail = FileSink::new(rt, names.mail.unwrap_or(""));
    match names.log {
        None => answer_with(rt, alloc, words, &mut mail, &mut Writing::new(rt.stderr())),
        Some(name) => answer_with(rt, alloc, words, &mut mail, &mut FileSink::new(rt, name)),
    }
}

// Runs the command of the process's words.
fn answer_process(rt: &HostRuntime) -> u8 {
    let alloc = rt.alloc();
    match env::args(rt) {
        Ok(args) => match args.skip(1).collect::<Vec<String>>(alloc) {
            Ok(words) => answer(rt, alloc, &words),
            Err(_) => NO_MEMORY,
        },
        Err(fault) => answer_fault(rt, fault.kind()),
    }
}

// Takes up the standard streams that are closed, from the lowest descriptor on; the status of the first that can not be.
fn take_up_streams(rt: &HostRuntime) -> Result<(), u8> {
    take_up(rt, &rt.stdin()).map_err(|_| INPUT_FAILED)?;
    take_up(rt, &rt.stdout()).map_err(|_| OUTPUT_FAILED)?;
    take_up(rt, &rt.stderr()).map_err(|_| LOG_FAILED)
}

fn main(rt: HostRuntime) -> ExitCode {
    let status = match take_up_streams(&rt) {
        Ok(()) => answer_process(&rt),
        Err(status) => status,
    };
    ExitCode::from(status)
}
