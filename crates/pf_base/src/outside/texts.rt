//! The texts that are written to the sinks of a run.
ghost use Rattle.std.specs.Prelude.{◌≡◌, [], IsOk};
ghost use Rattle.pf_base.specs.Outside.Objects as spec;
ghost use Rattle.pf_base.specs.Outside.Objects.{Says, log_text, out_text, sink_status, sinks, status_of};
ghost use Rattle.pf_base.specs.Outside.Known.{Output, Writes};

use crate::bytes::Bytes;
use crate::fault::{NoMemory, OuterFault};
use crate::outside::Sink;
use crate::outside::status::{LOG_FAILED, MAIL_FAILED, NO_MEMORY, OUT_FAILED};
use std::alloc::Global;

/// A text for the output, one for the record of messages, and one for the log.
#[derive(Debug, Drop)]
pub struct Texts {
    pub out: Bytes,
    pub mail: Bytes,
    pub log: Bytes,
}

impl Texts {
    /// No text.
    pub fn new(alloc: Global) -> Texts
        ensures { result ≡ record { out = []; mail = []; log = [] } }
    {
        Texts {
            out: Bytes::new(alloc),
            mail: Bytes::new(alloc),
            log: Bytes::new(alloc),
        }
    }
}

/// Why texts were not written whole. A sink's fault comes only where its count rose.
#[derive(Clone, Copy, Debug, PartialEq, Eq)]
pub enum SinkFault {
    /// A write to the output failed.
    Out,
    /// A write to the record of messages failed.
    Mail,
    /// A write to the log failed.
    Log,
    /// Out of memory.
    NoMemory,
}

impl From<NoMemory> for SinkFault {
    ghost use Rattle.std.specs.Prelude.{◌≡◌};
    ghost use Rattle.pf_base.specs.declared.outside.texts.SinkFault.TheVariants.{NoMemory};

    ghost from_gives = { λ _ fault. fault ≡ NoMemory };

    fn from(_: NoMemory) -> SinkFault {
        SinkFault::NoMemory
    }
}

impl SinkFault {
    /// The exit status of a run that this fault breaks off.
    pub fn status(self) -> u8
        ensures { result ≡ sink_status self }
    {
        match self {
            SinkFault::Out => OUT_FAILED,
            SinkFault::Mail => MAIL_FAILED,
            SinkFault::Log => LOG_FAILED,
            SinkFault::NoMemory => NO_MEMORY,
        }
    }
}

/// The exit status of a run that has written its last texts: this one, unless a fault broke that off.
pub fn status_after(status: u8, said: Result<(), SinkFault>) -> u8
    ensures { result ≡ status_of status said }
{
    match said {
        Ok(()) => status,
        Err(fault) => fault.status(),
    }
}

/// Writes a text, unless it is empty.
pub fn write_some<S: Sink>(sink: &mut S, text: &[u8]) -> Result<(), OuterFault>
    ensures bytes { Writes (S.known sink.old) (S.known sink.new) result text.now }
    ensures nothing { text.now ≡ [] → IsOk result × (S.known sink.new ≡ S.known sink.old) }
{
    if text.is_empty() {
        return Ok(());
    }
    sink.write(text)
}

/// The answer of a write to the sink whose fault this is.
pub fn blamed(failed: SinkFault, written: Result<(), OuterFault>) -> Result<(), SinkFault>
    ensures { result ≡ spec.blamed failed written }
{
    match written {
        Ok(()) => Ok(()),
        Err(OuterFault::Failed) => Err(failed),
        Err(OuterFault::NoMemory) => Err(SinkFault::NoMemory),
    }
}

/// Writes a line to the log, unless it is empty.
pub fn write_log<J: Sink>(log: &mut J, line: &[u8]) -> Result<(), SinkFault>
    ensures says { (out mail : Output) → Says (sinks out mail (J.known log.old)) (sinks out mail (J.known log.new)) (log_text line.now) result }
    ensures nothing { line.now ≡ [] → IsOk result × (J.known log.new ≡ J.known log.old) }
{
    blamed(SinkFault::Log, write_some(log, line))
}

/// Writes a text to the output, unless it is empty.
pub fn write_out<O: Sink>(out: &mut O, text: &[u8]) -> Result<(), SinkFault>
    ensures says { (mail log : Output) → Says (sinks (O.known out.old) mail log) (sinks (O.known out.new) mail log) (out_text text.now) result }
    ensures nothing { text.now ≡ [] → IsOk result × (O.known out.new ≡ O.known out.old) }
{
    blamed(SinkFault::Out, write_some(out, text))
}

/// Writes texts to the sinks that they are for, none where one is empty: that of the record before that of the log, and that of the
/// output last, so that what a client hears is in both. After a fault nothing is written to a later sink.
pub fn write_texts<O: Sink, M: Sink, J: Sink>(
    texts: &Texts,
    out: &mut O,
    mail: &mut M,
    log: &mut J,
) -> Result<(), SinkFault>
    ensures { Says (sinks (O.known out.old) (M.known mail.old) (J.known log.old)) (sinks (O.known out.new) (M.known mail.new) (J.known log.new)) texts.now result }
{
    blamed(SinkFault::Mail, write_some(mail, texts.mail.as_slice()))?;
    blamed(SinkFault::Log, write_some(log, texts.log.as_slice()))?;
    blamed(SinkFault::Out, write_some(out, texts.out.as_slice()))
}
