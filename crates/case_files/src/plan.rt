//! What a case, or one row of it, runs and wants.
use crate::statement::{Object, Statement};
use pf_base::{Bytes, NoMemory};
use std::alloc::Global;

/// Where something was named; what a case names itself is in the place of what its file shares.
#[derive(Clone, Copy, PartialEq, Eq)]
pub enum Layer {
    Unnamed,
    Shared,
    Own,
}

/// A text of a section.
#[derive(Drop)]
pub struct Text {
    pub layer: Layer,
    pub bytes: Bytes,
}

impl Text {
    pub fn new(alloc: Global) -> Text {
        Text {
            layer: Layer::Unnamed,
            bytes: Bytes::new(alloc),
        }
    }

    /// Begins the text anew, and says whether it was not named in this layer before.
    pub fn begin(&mut self, layer: Layer) -> bool {
        let is_first = self.layer != layer;
        self.layer = layer;
        self.bytes.clear();
        is_first
    }

    /// Lets go of a text that a section of the file before this layer gave.
    pub fn give_way(&mut self, layer: Layer) {
        if self.layer != layer {
            self.layer = Layer::Unnamed;
            self.bytes.clear();
        }
    }
}

/// A file of a case.
#[derive(Drop)]
pub struct Named {
    pub name: Bytes,
    pub text: Text,
}

/// A call of an object, or a count of its calls, and where it was said: the first call is 1.
#[derive(Clone, Copy)]
pub struct Call {
    pub object: Object,
    pub number: u64,
    pub layer: Layer,
}

/// What a case runs and wants.
#[derive(Drop)]
pub struct Plan {
    pub words: Option<Vec<String>>,
    pub status: u64,
    pub reads: Option<u64>,
    pub input: Text,
    pub output: Text,
    pub record: Text,
    pub log: Text,
    pub session: Layer,
    pub files: Vec<Named>,
    pub afterwards: Vec<Named>,
    pub failing: Vec<Call>,
    pub replies: Option<u64>,
    pub log_lines: Option<u64>,
    pub unread: Option<u64>,
    pub has_line_feeds: bool,
    pub in_turn: bool,
    pub calls: Vec<Call>,
}

impl Plan {
    pub fn new(alloc: Global, has_line_feeds: bool) -> Plan {
        Plan {
            words: None,
            status: 0,
            reads: None,
            input: Text::new(alloc),
            output: Text::new(alloc),
            record: Text::new(alloc),
            log: Text::new(alloc),
            session: Layer::Unnamed,
            files: Vec::new(alloc),
            afterwards: Vec::new(alloc),
            failing: Vec::new(alloc),
            replies: None,
            log_lines: None,
            unread: None,
            has_line_feeds,
            in_turn: false,
            calls: Vec::new(alloc),
        }
    }

    /// Takes a statement with its number.
    pub fn apply(
        &mut self,
        statement: Statement,
        number: u64,
        layer: Layer,
    ) -> Result<(), NoMemory> {
        match statement {
            Statement::Status => self.status = number,
            Statement::Reads => self.reads = Some(number),
            Statement::Replies => self.replies = Some(number),
            Statement::LogLines => self.log_lines = Some(number),
            Statement::Unread => self.unread = Some(number),
            Statement::InTurn => self.in_turn = true,
            Statement::Fails(object) => self.failing.push(Call {
                object,
                number,
                layer,
            })?,
            Statement::Calls(object) => self.calls.push(Call {
                object,
                number,
                layer,
            })?,
            Statement::Command
            | Statement::Refused
            | Statement::LineFeeds
            | Statement::MemoryOnly => {}
        }
        Ok(())
    }
}

// The place of the file of this name.
fn place_of(files: &[Named], name: &[u8]) -> Option<usize> {
    let mut place: usize = 0;
    for file in files {
        if file.name.as_slice() == name {
            return Some(place);
        }
        place = place.saturating_add(1);
    }
    None
}

/// The file of this name, which is begun anew; None where this layer named it before.
pub fn begin_file(
    alloc: Global,
    files: &mut Vec<Named>,
    name: &[u8],
    layer: Layer,
) -> Result<Option<usize>, NoMemory> {
    if let Some(place) = place_of(files.as_slice(), name) {
        if let Some(file) = files.get_mut(place) {
            return Ok(if file.text.begin(layer) {
                Some(place)
            } else {
                None
            });
        }
    }
    let mut text = Text::new(alloc);
    text.layer = layer;
    let name = Bytes::from_slice(alloc, name)?;
    files.push(Named { name, text })?;
    Ok(Some(files.len().saturating_sub(1)))
}

/// The text of the file of this name.
pub fn text_of<'a>(files: &'a [Named], name: &[u8]) -> Option<&'a [u8]> {
    for file in files {
        if file.name.as_slice() == name {
            return Some(file.text.bytes.as_slice());
        }
    }
    None
}
