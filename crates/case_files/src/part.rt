//! Reading the shared part of a file, or a case's own: statements and sections, line by line.
use crate::command::command_of;
use crate::escapes::add_unescaped;
use crate::lines::{first_part, is_silent, section_title};
use crate::plan::{Layer, Plan, Text, begin_file};
use crate::refusal::{Fault, Refusal};
use crate::statement::{Statement, statement_of};
use pf_base::{Bytes, cut_at};
use std::alloc::Global;

/// What begins the line of a case that the reader has to refuse.
pub const REFUSED: &[u8] = b"refused: ";

const WITH_ESCAPES: &[u8] = b", with escapes";

const AFTERWARDS: &[u8] = b" afterwards";

// The section that a line is in. A file has its place among those of the plan.
#[derive(Clone, Copy)]
enum Section {
    Outside,
    Session,
    Input,
    Output,
    Log,
    Record,
    File(usize),
    Afterwards(usize),
}

// Who speaks a line of a session.
#[derive(Clone, Copy)]
enum Speaker {
    Client,
    Server,
}

/// A part as it is read from the top.
#[derive(Drop)]
pub struct Reader {
    layer: Layer,
    section: Section,
    said: Vec<Statement>,
    has_escapes: bool,
    empty_lines: u64,
    has_sent: bool,
    has_got: bool,
}

// Begins the text of a section.
fn begin(text: &mut Text, layer: Layer, section: Section) -> Result<Section, Fault> {
    if text.begin(layer) {
        Ok(section)
    } else {
        Err(Fault::Refused(Refusal::TwoSections))
    }
}

// Begins the session, which is in the place of the shared one on both sides.
fn begin_session(plan: &mut Plan, layer: Layer) -> Result<Section, Fault> {
    if plan.session == layer {
        return Err(Fault::Refused(Refusal::TwoSections));
    }
    plan.session = layer;
    plan.input.give_way(layer);
    plan.output.give_way(layer);
    Ok(Section::Session)
}

// Begins a file, before the run or afterwards.
fn begin_named(
    alloc: Global,
    plan: &mut Plan,
    layer: Layer,
    title: &[u8],
) -> Result<Section, Fault> {
    let (name, is_afterwards) = match title.strip_suffix(AFTERWARDS) {
        None => (title, false),
        Some(name) => (name, true),
    };
    let names_file = cut_at(name, b'.').is_some() || cut_at(name, b'/').is_some();
    if !names_file || str::from_utf8(name).is_err() {
        return Err(Fault::Refused(Refusal::Section));
    }
    let files = if is_afterwards {
        &mut plan.afterwards
    } else {
        &mut plan.files
    };
    match begin_file(alloc, files, name, layer)? {
        None => Err(Fault::Refused(Refusal::TwoSections)),
        Some(place) if is_afterwards => Ok(Section::Afterwards(place)),
        Some(place) => Ok(Section::File(place)),
    }
}

// Adds a line to a text, with its escapes read where it has them.
fn add_line(text: &mut Bytes, line: &[u8], has_escapes: bool, end: &[u8]) -> Result<(), Fault> {
    if has_escapes {
        if add_unescaped(text, line)? {
            text.extend(end)?;
        }
    } else {
        text.extend(line)?;
        text.extend(end)?;
    }
    Ok(())
}

// Who speaks a line of a session, and what.
fn spoken(line: &[u8]) -> Result<(Speaker, &[u8]), Fault> {
    match line {
        [b'C', b':', b' ', words @ ..] => Ok((Speaker::Client, words)),
        [b'S', b':', b' ', words @ ..] => Ok((Speaker::Server, words)),
        [b'C', b':'] => Ok((Speaker::Client, b"")),
        [b'S', b':'] => Ok((Speaker::Server, b"")),
        _ => Err(Fault::Refused(Refusal::SessionLine)),
    }
}

impl Reader {
    pub fn new(alloc: Global, layer: Layer) -> Reader {
        Reader {
            layer,
            section: Section::Outside,
            said: Vec::new(alloc),
            has_escapes: false,
            empty_lines: 0,
            has_sent: false,
            has_got: false,
        }
    }

    // Begins the section of a title.
    fn open(&mut self, alloc: Global, plan: &mut Plan, title: &[u8]) -> Result<(), Fault> {
        let title = match title.strip_suffix(WITH_ESCAPES) {
            None => {
                self.has_escapes = false;
                title
            }
            Some(title) => {
                self.has_escapes = true;
                title
            }
        };
        self.empty_lines = 0;
        self.section = match title {
            b"session" => begin_session(plan, self.layer)?,
            b"input" => begin(&mut plan.input, self.layer, Section::Input)?,
            b"output" => begin(&mut plan.output, self.layer, Section::Output)?,
            b"log" => begin(&mut plan.log, self.layer, Section::Log)?,
            b"record" => begin(&mut plan.record, self.layer, Section::Record)?,
            _ => begin_named(alloc, plan, self.layer, title)?,
        };
        Ok(())
    }

    // Takes a line that the client sends.
    fn take_client(&mut self, plan: &mut Plan, words: &[u8]) -> Result<(), Fault> {
        if !self.has_sent {
            begin(&mut plan.input, self.layer, Section::Session)?;
            self.has_sent = true;
        }
        let end: &[u8] = if plan.has_line_feeds { b"\n" } else { b"\r\n" };
        add_line(&mut plan.input.bytes, words, self.has_escapes, end)
    }

    // Takes a line that the client gets.
    fn take_server(&mut self, plan: &mut Plan, words: &[u8]) -> Result<(), Fault> {
        if !self.has_got {
            begin(&mut plan.output, self.layer, Section::Session)?;
            self.has_got = true;
        }
        add_line(&mut plan.output.bytes, words, self.has_escapes, b"\r\n")
    }

    // Takes a line of a session; empty ones say nothing.
    fn take_spoken(&mut self, plan: &mut Plan, line: &[u8]) -> Result<(), Fault> {
        if line.is_empty() {
            return Ok(());
        }
        match spoken(line)? {
            (Speaker::Client, words) => self.take_client(plan, words),
            (Speaker::Server, words) => self.take_server(plan, words),
        }
    }

    // Takes a line of a text. Empty lines are added before the next line that is not.
    fn take_text(&mut self, text: &mut Bytes, line: &[u8]) -> Result<(), Fault> {
        if line.is_empty() {
            self.empty_lines = self.empty_lines.saturating_add(1);
            return Ok(());
        }
        for _ in 0..self.empty_lines {
            text.push(b'\n')?;
        }
        self.empty_lines = 0;
        add_line(text, line, self.has_escapes, b"\n")
    }

    // Takes note of a statement. Several calls may fail; any other kind comes once in a part.
    fn say(&mut self, statement: Statement) -> Result<(), Fault> {
        for said in &self.said {
            if *said == statement {
                return Err(Fault::Refused(Refusal::TwoStatements));
            }
        }
        if !matches!(statement, Statement::Fails(_)) {
            self.said.push(statement)?;
        }
        Ok(())
    }

    // Takes a statement, or a line that says nothing.
    fn take_statement(&mut self, alloc: Global, plan: &mut Plan, line: &[u8]) -> Result<(), Fault> {
        if is_silent(line) {
            return Ok(());
        }
        if line.starts_with(REFUSED) {
            return self.say(Statement::Refused);
        }
        if let Some(words) = command_of(alloc, line)? {
            self.say(Statement::Command)?;
            plan.words = Some(words);
            return Ok(());
        }
        let (statement, number) = statement_of(line)?;
        self.say(statement)?;
        plan.apply(statement, number, self.layer)?;
        Ok(())
    }

    // Takes a line that is no title.
    fn take_line(&mut self, alloc: Global, plan: &mut Plan, line: &[u8]) -> Result<(), Fault> {
        match self.section {
            Section::Outside => self.take_statement(alloc, plan, line),
            Section::Session => self.take_spoken(plan, line),
            Section::Input => self.take_text(&mut plan.input.bytes, line),
            Section::Output => self.take_text(&mut plan.output.bytes, line),
            Section::Log => self.take_text(&mut plan.log.bytes, line),
            Section::Record => self.take_text(&mut plan.record.bytes, line),
            Section::File(place) => match plan.files.get_mut(place) {
                None => Ok(()),
                Some(file) => self.take_text(&mut file.text.bytes, line),
            },
            Section::Afterwards(place) => match plan.afterwards.get_mut(place) {
                None => Ok(()),
                Some(file) => self.take_text(&mut file.text.bytes, line),
            },
        }
    }

    // Takes a line.
    fn take(&mut self, alloc: Global, plan: &mut Plan, line: &[u8]) -> Result<(), Fault> {
        match section_title(line) {
            Some(title) => self.open(alloc, plan, title),
            None => self.take_line(alloc, plan, line),
        }
    }
}

/// Reads a part into the plan.
pub fn read_part(alloc: Global, plan: &mut Plan, layer: Layer, text: &[u8]) -> Result<(), Fault> {
    let mut reader = Reader::new(alloc, layer);
    let mut left = text;
    for _ in 0..u64::MAX {
        let (line, after) = first_part(left, b'\n');
        reader.take(alloc, plan, line)?;
        let Some(after) = after else {
            break;
        };
        left = after;
    }
    Ok(())
}
