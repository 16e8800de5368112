//! What is written at the end of a run.
ghost use Rattle.std.specs.Prelude.{◌≡◌, [], IsOk};
ghost use Rattle.pf_base.specs.Outside.Objects.{Says, sinks};
ghost use Rattle.pf_base.specs.Outside.Known.{Output};

use pf_base::{Sink, SinkFault, Texts, blamed, write_some};

/// Writes the text for the log, and then that for the output; nothing where there is nothing to say. There is none for the record
/// of messages.
pub(crate) fn say<O: Sink, J: Sink>(
    texts: &Texts,
    out: &mut O,
    log: &mut J,
) -> Result<(), SinkFault>
    requires { texts.now.mail ≡ [] }
    ensures says { (mail : Output) → Says (sinks (O.known out.old) mail (J.known log.old)) (sinks (O.known out.new) mail (J.known log.new)) texts.now result }
    ensures no_output { texts.now.out ≡ [] → O.known out.new ≡ O.known out.old }
    ensures nothing { texts.now.out ≡ [] → texts.now.log ≡ [] → IsOk result }
{
    blamed(SinkFault::Log, write_some(log, texts.log.as_slice()))?;
    blamed(SinkFault::Out, write_some(out, texts.out.as_slice()))
}
