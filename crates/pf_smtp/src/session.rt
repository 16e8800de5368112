//! The session, as the layer above drives it.
ghost use Rattle.std.specs.Prelude.{◌≡◌, [], true, false, Ok, IfErr, IfOk, OnErr, OnOk};
ghost use Rattle.pf_base.specs.Outside.Objects.{Says, StopsBy, out_text, sinks};
ghost use Rattle.pf_base.specs.Outside.Known.{Output};
ghost use Rattle.pf_smtp.specs.Clauses.Feeding.{Took, fresh, going_of, texts_given};
ghost use Rattle.pf_smtp.specs.Text.{greeting_of};

use crate::progress::{LineBuffer, Progress};
use crate::reply::print_greeting;
use crate::state::{Setup, State};
use pf_base::{Bytes, Sink, SinkFault, Texts, write_out, write_texts};
use pf_cidr::Addr;
use pf_eval::PlainPolicy;
use std::alloc::Global;
use std::marker::Model;

/// Whether a session goes on. It has ended once a QUIT was answered with 221 (RFC 5321, 4.1.1.10), or a fault came.
#[derive(Clone, Copy, Debug, PartialEq, Eq)]
pub enum Going {
    /// It takes more input.
    More,
    /// It has ended.
    Ended,
}

// Lets the texts go, and keeps their room.
fn clear(texts: &mut Texts)
    ensures { texts.new ≡ record { out = []; mail = []; log = [] } }
{
    texts.out.clear();
    texts.mail.clear();
    texts.log.clear();
}

impl Progress {
    // Answers a piece. What it gives is gathered in the room of the texts, which may hold what an earlier piece gave.
    fn answer<O: Sink, M: Sink, J: Sink>(
        &mut self,
        alloc: Global,
        piece: &[u8],
        texts: &mut Texts,
        out: &mut O,
        mail: &mut M,
        log: &mut J,
    ) -> Result<(), SinkFault>
        ensures took { OnOk result (Took (sinks (O.known out.old) (M.known mail.old) (J.known log.old))
            (sinks (O.known out.new) (M.known mail.new) (J.known log.new)) self.old self.new piece.now) }
        ensures stops { IfErr result (λ fault. StopsBy fault (sinks (O.known out.old) (M.known mail.old) (J.known log.old))
            (sinks (O.known out.new) (M.known mail.new) (J.known log.new)) (texts_given self.old piece.now)) }
        ensures mail { M.known mail.new ≡ M.known mail.old }
    {
        clear(texts);
        self.take_piece(alloc, piece, texts)?;
        write_texts(texts, out, mail, log)
    }

    fn greet<O: Sink>(&self, alloc: Global, out: &mut O) -> Result<(), SinkFault>
        ensures { (mail log : Output) → Says (sinks (O.known out.old) mail log) (sinks (O.known out.new) mail log)
            (out_text (greeting_of self.now.setup.banner)) result }
    {
        let mut text = Bytes::new(alloc);
        print_greeting(self.setup.banner.as_slice(), &mut text)?;
        write_out(out, text.as_slice())
    }
}

/// A session with one client.
#[derive(Debug, Drop)]
pub struct Session {
    begun: bool,
    progress: Progress,
    // What the last piece gave: its room is used for the next one.
    texts: Texts,
}

impl Model for Session {
    ghost use Rattle.pf_smtp.specs.Clauses.Feeding.{SessionState};

    ghost Value = { SessionState };

    ghost view = { λ session. record { begun = session.begun; progress = session.progress } };
}

impl Session {
    /// A session of the server of this name and this banner with the client of this IPv4 address, whose first number is its
    /// highest byte. It takes no memory.
    pub fn new(
        alloc: Global,
        host: Bytes,
        banner: Bytes,
        policy: PlainPolicy,
        client: Addr,
    ) -> Session
        ensures { result ≡ record { begun = false; progress = fresh (record { host = host; banner = banner; policy = policy; client = client }) } }
    {
        Session {
            begun: false,
            progress: Progress {
                setup: Setup {
                    host,
                    banner,
                    policy,
                    client,
                },
                state: State {
                    line: 0,
                    sender: None,
                    ended: false,
                },
                partial: LineBuffer::new(alloc),
            },
            texts: Texts::new(alloc),
        }
    }

    /// Says the greeting, which is the banner after its code (postconf(5), smtpd_banner; RFC 5321, 4.2), once and first. After
    /// a fault a prefix of it was written, and the session has ended.
    pub fn greet<O: Sink>(&mut self, alloc: Global, out: &mut O) -> Result<(), SinkFault>
        requires { self.old.begun ≡ false }
        ensures says { (mail log : Output) → Says (sinks (O.known out.old) mail log) (sinks (O.known out.new) mail log)
            (out_text (greeting_of self.old.progress.setup.banner)) result }
        ensures begun { self.new.begun ≡ true }
        ensures same { OnOk result (self.new.progress ≡ self.old.progress) }
        ensures ended { OnErr result (self.new.progress.state.ended ≡ true) }
    {
        self.begun = true;
        match self.progress.greet(alloc, out) {
            Ok(()) => Ok(()),
            Err(fault) => {
                self.progress.state.ended = true;
                Err(fault)
            }
        }
    }

    /// Takes the next piece of the input, of any size, after the greeting, and answers the lines that end in it: the record lines
    /// first, then the log lines, then the replies. After a fault a prefix of them was written, nothing to a sink after the one that
    /// failed, and the session has ended. A session that has ended writes nothing and answers `Ended`. No verb of today gives a
    /// record line.
    pub fn feed<O: Sink, M: Sink, J: Sink>(
        &mut self,
        alloc: Global,
        piece: &[u8],
        out: &mut O,
        mail: &mut M,
        log: &mut J,
    ) -> Result<Going, SinkFault>
        requires { self.old.begun ≡ true }
        ensures took { OnOk result (Took (sinks (O.known out.old) (M.known mail.old) (J.known log.old))
            (sinks (O.known out.new) (M.known mail.new) (J.known log.new)) self.old.progress self.new.progress piece.now) }
        ensures stops { IfErr result (λ fault. StopsBy fault (sinks (O.known out.old) (M.known mail.old) (J.known log.old))
            (sinks (O.known out.new) (M.known mail.new) (J.known log.new)) (texts_given self.old.progress piece.now)) }
        ensures mail { M.known mail.new ≡ M.known mail.old }
        ensures begun { self.new.begun ≡ true }
        ensures going { IfOk result (λ going. going ≡ going_of self.new.progress.state) }
        ensures ended { OnErr result (self.new.progress.state.ended ≡ true) }
        ensures silent { self.old.progress.state.ended ≡ true → result ≡ Ok Going.Ended }
    {
        if self.progress.state.ended {
            return Ok(Going::Ended);
        }
        match self
            .progress
            .answer(alloc, piece, &mut self.texts, out, mail, log)
        {
            Ok(()) => {
                if self.progress.state.ended {
                    Ok(Going::Ended)
                } else {
                    Ok(Going::More)
                }
            }
            Err(fault) => {
                self.progress.state.ended = true;
                Err(fault)
            }
        }
    }
}
