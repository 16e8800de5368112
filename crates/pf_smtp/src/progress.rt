//! The progress of a session between two pieces of its input.
ghost use Rattle.std.specs.Prelude.{◌≡◌, ◌≤◌, ◌==◌, ◌++◌, [], ◌∷◌, length, take, OnOk};
ghost use Rattle.std.specs.List.{flat_map};
ghost use Rattle.std.specs.Option.{option_to_list};
ghost use Rattle.pf_smtp.specs.Clauses.Gathering.{AddsStep};
ghost use Rattle.pf_smtp.specs.Step.{step};
ghost use Rattle.pf_smtp.specs.Text.{text_of, log_line};

use crate::state::{Answer, Setup, State};
use crate::step::LINE_LIMIT;
use pf_base::{Bytes, NoMemory, Texts, first_line};
use std::alloc::Global;
use std::marker::Model;

// How much of a line is kept: this many bytes tell that it is too long, with its carriage return or without.
const KEPT: u64 = LINE_LIMIT as u64 + 2;

/// A prefix of a line that has not ended: at most 2,050 bytes, two more than a line may have.
#[derive(Debug, Drop)]
pub struct LineBuffer {
    bytes: Bytes,
}

impl Model for LineBuffer {
    ghost use Rattle.std.specs.Prelude.{◌≤◌, List, ℕ, length};

    ghost Value = { List ℕ };

    ghost view = { λ buffer. buffer.bytes };

    ghost invariant = { λ buffer. length buffer.bytes ≤ 2050 };
}

impl LineBuffer {
    pub(crate) fn new(alloc: Global) -> LineBuffer
        ensures { result ≡ [] }
    {
        LineBuffer {
            bytes: Bytes::new(alloc),
        }
    }

    // Keeps a prefix of what the line is now.
    fn keep(&mut self, bytes: &[u8]) -> Result<(), NoMemory>
        ensures { OnOk result (self.new ≡ take 2050 (self.old ++ bytes.now)) }
    {
        let room = (KEPT - self.bytes.len()) as usize;
        let count = room.min(bytes.len());
        self.bytes.extend(&bytes[..count])?;
        Ok(())
    }

    fn as_slice(&self) -> &[u8]
        ensures { result.now ≡ self.now }
    {
        self.bytes.as_slice()
    }

    fn is_empty(&self) -> bool
        ensures { result ≡ (length self.now == 0) }
    {
        self.as_slice().is_empty()
    }

    fn clear(&mut self)
        ensures { self.new ≡ [] }
    {
        self.bytes.clear();
    }
}

/// What a session is set up with, its state, and what is kept of the line that has not ended.
#[derive(Debug, Drop)]
pub struct Progress {
    pub setup: Setup,
    pub state: State,
    pub partial: LineBuffer,
}

// Adds the text of an answer's reply, and that of its log line.
fn add_answer(host: &[u8], answer: &Answer<'_>, texts: &mut Texts) -> Result<(), NoMemory>
    ensures out { OnOk result (texts.new.out ≡ texts.old.out ++ flat_map (text_of host.now) (answer.now.reply ∷ [])) }
    ensures mail { OnOk result (texts.new.mail ≡ texts.old.mail) }
    ensures log { OnOk result (texts.new.log ≡ texts.old.log ++ flat_map log_line (option_to_list answer.now.entry)) }
{
    answer.reply.print(host, &mut texts.out)?;
    match &answer.entry {
        None => Ok(()),
        Some(entry) => entry.print(&mut texts.log),
    }
}

// Answers a whole line.
fn answer_line(
    alloc: Global,
    setup: &Setup,
    state: &mut State,
    line: &[u8],
    texts: &mut Texts,
) -> Result<(), NoMemory>
    ensures { OnOk result (AddsStep texts.old texts.new setup.now state.new (step setup.now state.old line.now)) }
{
    let answer = state.step(alloc, setup, line)?;
    add_answer(setup.host.as_slice(), &answer, texts)
}

impl Progress {
    ghost use Rattle.pf_smtp.specs.Clauses.Gathering.{AnswersLine, AnswersPiece};

    // Answers a line, whose last bytes these are, and has nothing of the next one. A line that is whole is answered where it is.
    fn take_line(&mut self, alloc: Global, line: &[u8], texts: &mut Texts) -> Result<(), NoMemory>
        ensures { OnOk result (AnswersLine texts.old texts.new self.old self.new line.now) }
    {
        if self.partial.is_empty() {
            return answer_line(alloc, &self.setup, &mut self.state, line, texts);
        }
        self.partial.keep(line)?;
        let whole = self.partial.as_slice();
        answer_line(alloc, &self.setup, &mut self.state, whole, texts)?;
        self.partial.clear();
        Ok(())
    }

    /// Answers the lines that end in a piece, and keeps a prefix of the one that doesn't.
    pub(crate) fn take_piece(
        &mut self,
        alloc: Global,
        piece: &[u8],
        texts: &mut Texts,
    ) -> Result<(), NoMemory>
        ensures { OnOk result (AnswersPiece texts.old texts.new self.old self.new piece.now) }
    {
        let mut left = piece;
        'lines: while !self.state.ended {
            match first_line(left) {
                None => {
                    self.partial.keep(left)?;
                    return Ok(());
                }
                Some((line, after)) => {
                    self.take_line(alloc, line, texts)?;
                    left = after;
                }
            }
        }
        Ok(())
    }
}
