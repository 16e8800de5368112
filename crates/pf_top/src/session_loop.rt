//! A session over the input, from the greeting to its end.
ghost use Rattle.std.specs.Prelude.{◌≡◌, ◌<◌, true, length};
ghost use Rattle.pf_base.specs.Outside.Objects.{sinks, streams};
ghost use Rattle.pf_smtp.specs.Clauses.Feeding.{fresh};
ghost use Rattle.pf_top.specs.Opening.{setup_of};
ghost use Rattle.pf_top.specs.SessionLoop.{HasSession, Served};
ghost use Rattle.pf_top.specs.Clauses.Turns.{IsTurn, speech_from};

use crate::opening::Opening;
use pf_base::{Sink, SinkFault, Source};
use pf_cidr::Addr;
use pf_smtp::{Going, Session};
use std::alloc::Global;

// The most bytes of one read.
const PIECE: u64 = 4096;

/// Why a session was broken off.
#[derive(Clone, Copy, Debug, PartialEq, Eq)]
pub(crate) enum LoopFault {
    Input,
    Sink(SinkFault),
}

/// What a read gave: the end of the input, or so many bytes, after which the session goes on or is over.
#[derive(Clone, Copy, Debug, PartialEq, Eq)]
enum Turn {
    End,
    More(u64),
    Over(u64),
}

/// How a session came to its end.
#[derive(Clone, Copy, Debug, PartialEq, Eq)]
pub(crate) enum Ended {
    AtEnd,
    AtOver,
    AtBudget,
}

// Reads a piece, at most as long as the buffer, and feeds it.
fn serve_piece<S: Source, O: Sink, M: Sink, J: Sink>(
    alloc: Global,
    session: &mut Session,
    buf: &mut [u8],
    input: &mut S,
    out: &mut O,
    mail: &mut M,
    log: &mut J,
) -> Result<Turn, LoopFault>
    requires room { 0 < length buf.old }
    requires begun { session.old.begun ≡ true }
    ensures turn { IsTurn (streams (S.known input.old) (sinks (O.known out.old) (M.known mail.old) (J.known log.old)))
        (streams (S.known input.new) (sinks (O.known out.new) (M.known mail.new) (J.known log.new))) session.old.progress session.new.progress (length buf.old) result }
    ensures begun { session.new.begun ≡ true }
{
    let Ok(count) = input.read(buf) else {
        return Err(LoopFault::Input);
    };
    if count == 0 {
        return Ok(Turn::End);
    }
    match session.feed(alloc, &buf[..count], out, mail, log) {
        Ok(Going::More) => Ok(Turn::More(count as u64)),
        Ok(Going::Ended) => Ok(Turn::Over(count as u64)),
        Err(fault) => Err(LoopFault::Sink(fault)),
    }
}

// Feeds the input to a session that has said its greeting, to its end, to the end of the session, or up to a budget of bytes.
fn serve<S: Source, O: Sink, M: Sink, J: Sink>(
    alloc: Global,
    session: &mut Session,
    budget: u64,
    input: &mut S,
    out: &mut O,
    mail: &mut M,
    log: &mut J,
) -> Result<Ended, LoopFault>
    requires begun { session.old.begun ≡ true }
    requires starts { session.old.progress ≡ fresh session.old.progress.setup }
    ensures { Served (speech_from session.old.progress) budget
        (streams (S.known input.old) (sinks (O.known out.old) (M.known mail.old) (J.known log.old)))
        (streams (S.known input.new) (sinks (O.known out.new) (M.known mail.new) (J.known log.new))) result }
{
    let mut buf = [0u8; 4096];
    let mut taken = 0;
    'turns: while taken < budget {
        let room = (budget - taken).min(PIECE) as usize;
        match serve_piece(alloc, session, &mut buf[..room], input, out, mail, log) {
            Ok(Turn::End) => return Ok(Ended::AtEnd),
            Ok(Turn::More(count)) => taken += count,
            Ok(Turn::Over(_)) => return Ok(Ended::AtOver),
            Err(fault) => return Err(fault),
        }
    }
    Ok(Ended::AtBudget)
}

/// A session with the client of this address: the greeting, and then the input to its end, at most `budget` bytes.
pub(crate) fn run_session<S: Source, O: Sink, M: Sink, J: Sink>(
    alloc: Global,
    opening: Opening,
    client: Addr,
    budget: u64,
    input: &mut S,
    out: &mut O,
    mail: &mut M,
    log: &mut J,
) -> Result<Ended, LoopFault>
    ensures { HasSession (setup_of opening client) budget
        (streams (S.known input.old) (sinks (O.known out.old) (M.known mail.old) (J.known log.old)))
        (streams (S.known input.new) (sinks (O.known out.new) (M.known mail.new) (J.known log.new))) result }
{
    let mut session = Session::new(alloc, opening.host, opening.banner, opening.policy, client);
    match session.greet(alloc, out) {
        Ok(()) => serve(alloc, &mut session, budget, input, out, mail, log),
        Err(fault) => Err(LoopFault::Sink(fault)),
    }
}
