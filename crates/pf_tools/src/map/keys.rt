//! The keys of the input, and what is answered to them.
ghost use Rattle.std.specs.Prelude.{◌≡◌, ◌++◌, ◌<◌, [], ◌∷◌, false, length, is_some, IfOk, OnOk};
ghost use Rattle.pf_base.specs.Outside.Known.{Output};
ghost use Rattle.pf_base.specs.Outside.Objects.{sinks, streams};
ghost use Rattle.pf_base.specs.Text.Lines as text_lines;
ghost use Rattle.pf_tools.specs.Map.Keys.{Answers, last_key};
ghost use Rattle.pf_tools.specs.Map.Lines.{has_value, key_line, key_lines, value_at};
ghost use Rattle.pf_tools.specs.Clauses.Opened.{meant};
ghost use Rattle.pf_tools.specs.Clauses.Keys.{IsEnd, IsTurn, TakesKeys, keys_ended, partial_after};

use crate::map::lines::add_pair_line;
use crate::map::table::value_of;
use pf_base::{Bytes, NoMemory, Sink, SinkFault, Source, first_line, without_return, write_out};
use pf_maps::Tables;
use std::alloc::Global;

// The most bytes of one read.
const PIECE: u64 = 4096;

/// How the keys of the input came to their end: with the input, and a key had a value or none had; or with the budget.
#[derive(Clone, Copy, Debug, PartialEq, Eq)]
pub(crate) enum Ended {
    AtEnd(bool),
    AtBudget,
}

/// Why the answers were broken off.
#[derive(Clone, Copy, Debug, PartialEq, Eq)]
pub(crate) enum KeysFault {
    Input,
    Sink(SinkFault),
}

/// What a read gave: the end of the input, or so many bytes.
#[derive(Clone, Copy, Debug, PartialEq, Eq)]
pub(crate) enum Turn {
    End,
    More(u64),
}

/// What is kept between two pieces: what there is of the key that has not ended, and whether a key had a value.
#[derive(Debug, Drop)]
pub(crate) struct Progress {
    pub(crate) partial: Bytes,
    pub(crate) found: bool,
}

// Adds the line of a key and its value, if it has one, and says whether it has.
fn answer_key(
    alloc: Global,
    tables: &mut Tables,
    key: &[u8],
    text: &mut Bytes,
) -> Result<bool, NoMemory>
    ensures found { IfOk result (λ found. found ≡ is_some (value_at (meant tables.old) key.now)) }
    ensures text { OnOk result (text.new ≡ text.old ++ key_line (meant tables.old) key.now) }
    ensures same { meant tables.new ≡ meant tables.old }
{
    match value_of(alloc, tables, key)? {
        None => Ok(false),
        Some(value) => {
            add_pair_line(text, key, value.as_slice())?;
            Ok(true)
        }
    }
}

// Answers the key that no line feed ends, if there is one, and says whether it has a value.
fn answer_last(
    alloc: Global,
    tables: &mut Tables,
    partial: &[u8],
    text: &mut Bytes,
) -> Result<bool, NoMemory>
    ensures found { IfOk result (λ found. found ≡ has_value (meant tables.old) (last_key partial.now)) }
    ensures text { OnOk result (text.new ≡ text.old ++ key_lines (meant tables.old) (last_key partial.now)) }
    ensures same { meant tables.new ≡ meant tables.old }
{
    if partial.is_empty() {
        return Ok(false);
    }
    answer_key(alloc, tables, partial, text)
}

impl Progress {
    fn new(alloc: Global) -> Progress
        ensures { result ≡ record { partial = []; found = false } }
    {
        Progress {
            partial: Bytes::new(alloc),
            found: false,
        }
    }

    // Answers the key whose last bytes these are. A key that is whole is answered where it is.
    fn take_line(
        &mut self,
        alloc: Global,
        tables: &mut Tables,
        line: &[u8],
        text: &mut Bytes,
    ) -> Result<(), NoMemory>
        ensures taken { OnOk result (TakesKeys (meant tables.old) text.old text.new self.old self.new (text_lines.without_return (self.old.partial ++ line.now) ∷ []) []) }
        ensures same { meant tables.new ≡ meant tables.old }
    {
        if self.partial.as_slice().is_empty() {
            let found = answer_key(alloc, tables, without_return(line), text)?;
            self.found = self.found || found;
            return Ok(());
        }
        self.partial.extend(line)?;
        let found = answer_key(alloc, tables, without_return(self.partial.as_slice()), text)?;
        self.found = self.found || found;
        self.partial.clear();
        Ok(())
    }

    // Answers the keys that end in a piece, and keeps what there is of the one that doesn't.
    fn take_piece(
        &mut self,
        alloc: Global,
        tables: &mut Tables,
        piece: &[u8],
        text: &mut Bytes,
    ) -> Result<(), NoMemory>
        ensures taken { OnOk result (TakesKeys (meant tables.old) text.old text.new self.old self.new (keys_ended self.old.partial piece.now) (partial_after self.old.partial piece.now)) }
        ensures same { meant tables.new ≡ meant tables.old }
    {
        let mut left = piece;
        'lines: while let Some((line, after)) = first_line(left) {
            self.take_line(alloc, tables, line, text)?;
            left = after;
        }
        self.partial.extend(left)
    }
}

// Reads a piece, at most as long as the buffer, and answers the keys that end in it.
fn take_turn<S: Source, O: Sink>(
    alloc: Global,
    tables: &mut Tables,
    progress: &mut Progress,
    text: &mut Bytes,
    buf: &mut [u8],
    input: &mut S,
    out: &mut O,
) -> Result<Turn, KeysFault>
    requires { 0 < length buf.old }
    ensures turn { (mail log : Output) → IsTurn (meant tables.old) (streams (S.known input.old) (sinks (O.known out.old) mail log))
        (streams (S.known input.new) (sinks (O.known out.new) mail log)) progress.old progress.new (length buf.old) result }
    ensures same { meant tables.new ≡ meant tables.old }
{
    let Ok(count) = input.read(buf) else {
        return Err(KeysFault::Input);
    };
    if count == 0 {
        return Ok(Turn::End);
    }
    text.clear();
    let Ok(()) = progress.take_piece(alloc, tables, &buf[..count], text) else {
        return Err(KeysFault::Sink(SinkFault::NoMemory));
    };
    match write_out(out, text.as_slice()) {
        Ok(()) => Ok(Turn::More(count as u64)),
        Err(fault) => Err(KeysFault::Sink(fault)),
    }
}

// Answers the last key, and says whether any had a value.
fn end_keys<O: Sink>(
    alloc: Global,
    tables: &mut Tables,
    progress: &Progress,
    text: &mut Bytes,
    out: &mut O,
) -> Result<Ended, KeysFault>
    ensures { (mail log : Output) → IsEnd (meant tables.old) (sinks (O.known out.old) mail log) (sinks (O.known out.new) mail log) progress.now result }
{
    text.clear();
    let Ok(found) = answer_last(alloc, tables, progress.partial.as_slice(), text) else {
        return Err(KeysFault::Sink(SinkFault::NoMemory));
    };
    match write_out(out, text.as_slice()) {
        Ok(()) => Ok(Ended::AtEnd(progress.found || found)),
        Err(fault) => Err(KeysFault::Sink(fault)),
    }
}

/// Answers the keys of the input by a table, to the end of the input or up to a budget of bytes. What the keys of a piece have is
/// written together.
pub(crate) fn answer_keys<S: Source, O: Sink>(
    alloc: Global,
    tables: Tables,
    budget: u64,
    input: &mut S,
    out: &mut O,
) -> Result<Ended, KeysFault>
    ensures { (mail log : Output) → Answers (meant tables) budget (streams (S.known input.old) (sinks (O.known out.old) mail log))
        (streams (S.known input.new) (sinks (O.known out.new) mail log)) result }
{
    let mut tables = tables;
    let mut progress = Progress::new(alloc);
    let mut text = Bytes::new(alloc);
    let mut buf = [0u8; 4096];
    let mut taken = 0;
    'turns: while taken < budget {
        let room = (budget - taken).min(PIECE) as usize;
        match take_turn(
            alloc,
            &mut tables,
            &mut progress,
            &mut text,
            &mut buf[..room],
            input,
            out,
        ) {
            Ok(Turn::End) => return end_keys(alloc, &mut tables, &progress, &mut text, out),
            Ok(Turn::More(count)) => taken += count,
            Err(fault) => return Err(fault),
        }
    }
    Ok(Ended::AtBudget)
}
