//! What a resolver and a service of pf_asks answer in memory, by the kinds of its rows:
//!
//! - `resolver N`: what a resolver of one address answers for the mail exchangers and then the addresses of the text, where its
//!   question of number N fails
//! - `links STEP`: what two tries of a service come to, of which the first is down at STEP and the second replies the text
use pf_asks::{
    Answer, AskFault, Kind, LinkStep, Links, MemLinks, MemResolver, Outcome, Resolver, Row,
};
use pf_base::{Bytes, Failed, List, NoMemory, OuterFault};
use std::alloc::Global;

// A resolver that knows one address. The question of this number, from 1, fails.
fn resolver(alloc: Global, failing: u64) -> Result<MemResolver, NoMemory> {
    let mut values = List::new(alloc);
    values.push(Bytes::from_slice(alloc, b"192.0.2.1")?)?;
    let mut rows = List::new(alloc);
    rows.push(Row {
        kind: Kind::A,
        name: Bytes::from_slice(alloc, b"mail.test")?,
        answer: Answer::Found(values),
    })?;
    let mut numbers = List::new(alloc);
    numbers.push(failing)?;
    match MemResolver::new(rows, numbers) {
        Some(resolver) => Ok(resolver),
        None => Err(NoMemory),
    }
}

fn add_values(said: &mut Bytes, values: &[Bytes]) -> Result<(), NoMemory> {
    for value in values {
        said.extend_all(&[value.as_slice(), b"|"])?;
    }
    Ok(())
}

// Adds what a resolver answers.
fn add_answer(said: &mut Bytes, answer: Result<Answer, AskFault>) -> Result<(), NoMemory> {
    match answer {
        Ok(Answer::Found(values)) => add_values(said, values.as_slice()),
        Ok(Answer::Missing) => said.extend(b"missing|"),
        Ok(Answer::Again) => said.extend(b"again|"),
        Err(AskFault::Failed) => said.extend(b"failed|"),
        Err(AskFault::NoMemory) => Err(NoMemory),
    }
}

// Adds what a resolver of one address answers for the mail exchangers and then the addresses of a name.
fn add_resolver(
    alloc: Global,
    said: &mut Bytes,
    failing: u64,
    name: &[u8],
) -> Result<(), NoMemory> {
    let mut resolver = resolver(alloc, failing)?;
    let exchangers = resolver.ask(alloc, name, Kind::Mx);
    add_answer(said, exchangers)?;
    let addresses = resolver.ask(alloc, name, Kind::A);
    add_answer(said, addresses)
}

fn step_named(step: &str) -> LinkStep {
    match step {
        "connect" => LinkStep::Connect,
        "send" => LinkStep::Send,
        _ => LinkStep::Receive,
    }
}

// A service whose first try is down at this step, and whose second one replies so.
fn service(alloc: Global, step: LinkStep, reply: &[u8]) -> Result<MemLinks, NoMemory> {
    let mut outcomes = List::new(alloc);
    outcomes.push(Outcome::Down(step))?;
    outcomes.push(Outcome::Reply(Bytes::from_slice(alloc, reply)?))?;
    Ok(MemLinks::new(alloc, outcomes))
}

// Adds the reply of the open try.
fn add_reply(said: &mut Bytes, links: &mut MemLinks) -> Result<(), NoMemory> {
    let mut buf = [0; 4];
    for _ in 0..u64::MAX {
        match links.receive(&mut buf) {
            Err(Failed) => return said.extend(b"down at receive"),
            Ok(0) => return Ok(()),
            Ok(count) => said.extend(&buf[..count])?,
        }
    }
    Ok(())
}

// Adds where a try is down, or its reply.
fn add_try(said: &mut Bytes, links: &mut MemLinks) -> Result<(), NoMemory> {
    match links.connect(b"policy") {
        Ok(()) => {}
        Err(OuterFault::Failed) => return said.extend(b"down at connect"),
        Err(OuterFault::NoMemory) => return Err(NoMemory),
    }
    match links.send(b"request\n\n") {
        Ok(()) => add_reply(said, links),
        Err(OuterFault::Failed) => said.extend(b"down at send"),
        Err(OuterFault::NoMemory) => Err(NoMemory),
    }
}

// Adds what two tries of a service come to, of which the first is down at a step and the second replies so.
fn add_links(alloc: Global, said: &mut Bytes, step: &str, reply: &[u8]) -> Result<(), NoMemory> {
    let mut links = service(alloc, step_named(step), reply)?;
    add_try(said, &mut links)?;
    links.hang_up();
    said.push(b'|')?;
    add_try(said, &mut links)?;
    links.hang_up();
    Ok(())
}

/// Adds what is answered of a text, of what a row asks.
pub fn add_said(
    alloc: Global,
    said: &mut Bytes,
    prefix: &str,
    text: &[u8],
) -> Result<(), NoMemory> {
    match prefix.split_once(' ') {
        Some(("resolver", number)) => {
            add_resolver(alloc, said, number.parse::<u64>().unwrap_or(0), text)
        }
        Some(("links", step)) => add_links(alloc, said, step, text),
        _ => said.extend(b"no such kind"),
    }
}
