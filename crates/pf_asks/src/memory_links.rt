//! Policy services in memory, each try of which gives the next of the outcomes that they are made with.
ghost use Rattle.std.specs.Io.{ReadsAtMost};
ghost use Rattle.std.specs.Prelude.{◌≡◌, [], None, is_err, length, min, take, IfOk, OnOk, OnErr};
ghost use Rattle.pf_base.specs.Outside.Counts.{counted_by};
ghost use Rattle.pf_asks.specs.Clauses.Causes.{counted_if};
ghost use Rattle.pf_asks.specs.Clauses.MemoryLinks as memory;
ghost use Rattle.pf_asks.specs.Wire.{Receives, begun, hung_up, next_outcome, reply_bytes};

use crate::links::{LinkStep, Links, Outcome, Request};
use pf_base::{Bytes, Failed, List, NoMemory, OuterFault};
use std::alloc::Global;
use std::marker::Model;
use std::mem::replace;

fn same_step(one: LinkStep, other: LinkStep) -> bool
    ensures { result ≡ memory.same_step one other }
{
    match one {
        LinkStep::Connect => other == LinkStep::Connect,
        LinkStep::Send => other == LinkStep::Send,
        LinkStep::Receive => other == LinkStep::Receive,
    }
}

// Whether the next of these outcomes is down at this step; past the last one every connection is refused.
fn is_down_at(step: LinkStep, outcomes: &[Outcome]) -> bool
    ensures { result ≡ memory.is_down_at step (next_outcome outcomes.now).0 }
{
    match outcomes {
        [] => same_step(step, LinkStep::Connect),
        [first, ..] => match first {
            Outcome::Down(at) => same_step(step, *at),
            Outcome::Reply(_) => false,
        },
    }
}

// The bytes of the next reply; none where that outcome is down.
fn next_reply(outcomes: &[Outcome]) -> &[u8]
    ensures { result.now ≡ reply_bytes (next_outcome outcomes.now).0 }
{
    match outcomes {
        [] => &[],
        [first, ..] => match first {
            Outcome::Down(_) => &[],
            Outcome::Reply(text) => text.as_slice(),
        },
    }
}

fn behind_place(place: usize, count: usize) -> usize
    ensures { result ≡ memory.behind_place place count }
{
    if place < count { place + 1 } else { place }
}

fn no_request(alloc: Global) -> Request
    ensures { result ≡ record { service = []; text = [] } }
{
    Request {
        service: Bytes::new(alloc),
        text: Bytes::new(alloc),
    }
}

// Copies the first bytes of what is left into the buffer, and says how many bytes.
fn copy_prefix(buf: &mut [u8], left: &[u8]) -> usize
    ensures count { result ≡ min (length left.now) (length buf.old) }
    ensures copied { take result buf.new ≡ take result left.now }
{
    let count = left.len().min(buf.len());
    buf[..count].copy_from_slice(&left[..count]);
    count
}

/// Policy services in memory. They tell what the tries to come give, and what was sent in those that were begun.
#[derive(Debug, Drop)]
pub struct MemLinks {
    alloc: Global,
    outcomes: List<Outcome>,
    // the place of the next outcome
    next: usize,
    // of an open try a place is kept here for its request
    tries: List<Request>,
    is_open: bool,
    request: Request,
    // the place of the open try's outcome, and how many bytes of its reply were read
    place: usize,
    read: usize,
    faults: u64,
}

impl Model for MemLinks {
    ghost use Rattle.std.specs.Prelude.{◌≡◌, ◌<◌, ◌≤◌, true, drop, length};
    ghost use Rattle.pf_asks.specs.Clauses.MemoryLinks.{MemoryLinks, all_tries, open_try, outcome_at};
    ghost use Rattle.pf_asks.specs.Wire.{reply_bytes};

    ghost Value = { MemoryLinks };

    ghost view = { λ links. record {
      wire = record {
        outcomes = drop links.next links.outcomes;
        tries = all_tries links.is_open links.request links.tries;
        opened = open_try links.is_open (outcome_at links.place links.outcomes) links.read;
      };
      faults = links.faults;
    } };

    ghost invariant = { λ links. (links.is_open ≡ true → 0 < length links.tries)
        × (links.next ≤ length links.outcomes) × (links.place ≤ length links.outcomes)
        × (links.read ≤ length (reply_bytes (outcome_at links.place links.outcomes))) };
}

impl MemLinks {
    /// Services that answer each try with the next of these outcomes, and refuse every connection after the last.
    pub fn new(alloc: Global, outcomes: List<Outcome>) -> MemLinks
        ensures { result ≡ memory.links_with outcomes }
    {
        MemLinks {
            alloc,
            outcomes,
            next: 0,
            tries: List::new(alloc),
            is_open: false,
            request: no_request(alloc),
            place: 0,
            read: 0,
            faults: 0,
        }
    }

    // Whether no try is open, or the open one is down at this step.
    fn fails_at(&self, step: LinkStep) -> bool
        ensures { result ≡ memory.fails_at step self.now.wire.opened }
    {
        !self.is_open || is_down_at(step, &self.outcomes.as_slice()[self.place..])
    }

    // Counts a fault.
    fn fail(&mut self)
        ensures { self.new ≡ record self.old { faults = counted_by 1 self.old.faults } }
    {
        self.faults = self.faults.saturating_add(1);
    }

    // Ends the open try.
    fn close(&mut self)
        ensures { self.new ≡ record self.old { wire = hung_up self.old.wire } }
    {
        if self.is_open {
            let last = self.tries.len() - 1;
            let request = replace(&mut self.request, no_request(self.alloc));
            self.tries.set(last, request);
            self.is_open = false;
        }
    }

    // Begins a try where none is open.
    fn begin(&mut self, service: &[u8]) -> Result<(), NoMemory>
        requires { self.old.wire.opened ≡ None }
        ensures ok { OnOk result (self.new ≡ record self.old { wire = begun service.now self.old.wire }) }
        ensures err { OnErr result (self.new ≡ self.old) }
    {
        let request = Request {
            service: Bytes::from_slice(self.alloc, service)?,
            text: Bytes::new(self.alloc),
        };
        self.tries.push(no_request(self.alloc))?;
        self.request = request;
        self.is_open = true;
        self.place = self.next;
        self.read = 0;
        self.next = behind_place(self.next, self.outcomes.len() as usize);
        Ok(())
    }
}

impl Links for MemLinks {
    ghost held = { memory.links_held };

    fn connect(&mut self, service: &[u8]) -> Result<(), OuterFault> {
        self.close();
        if let Err(NoMemory) = self.begin(service) {
            return Err(OuterFault::NoMemory);
        }
        if self.fails_at(LinkStep::Connect) {
            self.fail();
            return Err(OuterFault::Failed);
        }
        Ok(())
    }

    fn send(&mut self, piece: &[u8]) -> Result<(), OuterFault> {
        if self.fails_at(LinkStep::Send) {
            self.fail();
            return Err(OuterFault::Failed);
        }
        self.request.text.extend(piece)?;
        Ok(())
    }

    /// Fills the buffer, or reads up to the end of the reply.
    fn receive(&mut self, buf: &mut [u8]) -> Result<usize, Failed>
        ensures bound { ReadsAtMost result buf.new }
        ensures does { Receives (memory.links_held self.old).content (memory.links_held self.new).content result buf.new }
        ensures cause { (memory.links_held self.new).faults ≡ counted_if (is_err result) (memory.links_held self.old).faults }
        ensures whole { IfOk result (λ n. n ≡ min (length (memory.left_in self.old.wire.opened)) (length buf.old)) }
    {
        if self.fails_at(LinkStep::Receive) {
            self.fail();
            return Err(Failed);
        }
        let reply = next_reply(&self.outcomes.as_slice()[self.place..]);
        let count = copy_prefix(buf, &reply[self.read..]);
        self.read += count;
        Ok(count)
    }

    fn hang_up(&mut self) {
        self.close();
    }
}
