//! The table texts of a main.cf, in the order in which tables are opened.
ghost use Rattle.std.specs.Prelude.{◌≡◌, ◌<◌, [], length, slice_get, Some, IfOk, OnErr, map};
ghost use Rattle.std.specs.List.{position};
ghost use Rattle.std.specs.Option.{option_map};
ghost use Rattle.std.specs.Str.{bytes_eq};
ghost use Rattle.pf_base.specs.TableTexts as spec;
ghost use Rattle.pf_base.specs.TableTexts.{Adds};

use crate::bytes::Bytes;
use crate::fault::NoMemory;
use crate::list::List;
use std::alloc::Global;
use std::marker::Model;

/// The place of a table text, from 0.
#[derive(Clone, Copy, Debug, PartialEq, Eq)]
pub struct TableId(pub u64);

// A table text with the line of the setting that named it first.
#[derive(Debug, PartialEq, Eq, Drop)]
pub(crate) struct TableText {
    pub(crate) line: u64,
    pub(crate) text: Bytes,
}

/// The table texts that settings name, without repeats, in the order in which they are met. Each has the line of the first
/// setting that names it, and all have the name of the file of these settings. What a table text is, DATABASE_README says: a type, a colon and a name.
#[derive(Debug, Drop)]
pub struct Specs {
    file: Bytes,
    texts: List<TableText>,
}

impl Model for Specs {
    ghost use Rattle.pf_base.specs.TableTexts.{TableTexts};

    ghost Value = { TableTexts };

    ghost view = { λ specs. record { file = specs.file; texts = specs.texts } };
}

fn place_of(texts: &[TableText], text: &[u8]) -> Option<usize>
    ensures { result ≡ spec.place_of texts.now text.now }
{
    texts.iter().position(|one| one.text.as_slice() == text)
}

impl Specs {
    /// No texts. It takes no memory.
    pub fn new(alloc: Global, file: Bytes) -> Specs
        ensures { result ≡ record { file = file; texts = [] } }
    {
        Specs {
            file,
            texts: List::new(alloc),
        }
    }

    /// The place of a text; None where it is not there.
    pub fn id(&self, text: &[u8]) -> Option<TableId>
        ensures { option_map (λ id. id.0) result ≡ spec.place_of self.now.texts text.now }
    {
        match place_of(self.texts.as_slice(), text) {
            None => None,
            Some(place) => Some(TableId(place as u64)),
        }
    }

    /// The place of a text, which is added after the others where it is not there; one that is there keeps its place and
    /// its line. Where there is no memory nothing changes.
    pub fn add(&mut self, alloc: Global, line: u64, text: &[u8]) -> Result<TableId, NoMemory>
        ensures ok { IfOk result (λ id. Adds self.old self.new id.0 line text.now) }
        ensures err { OnErr result (self.new ≡ self.old) }
    {
        if let Some(id) = self.id(text) {
            return Ok(id);
        }
        let id = TableId(self.texts.len());
        let text = Bytes::from_slice(alloc, text)?;
        self.texts.push(TableText { line, text })?;
        Ok(id)
    }

    /// How many texts there are.
    pub fn len(&self) -> u64
        ensures { result ≡ length self.now.texts }
    {
        self.texts.len()
    }

    /// The name of the file of the settings.
    pub fn file(&self) -> &Bytes
        ensures { result.now ≡ self.now.file }
    {
        &self.file
    }

    /// The text at a place.
    pub fn text(&self, id: TableId) -> &Bytes
        requires { id.0 < length self.now.texts }
        ensures { slice_get (map (λ one. one.text) self.now.texts) id.0 ≡ Some result.now }
    {
        &self.texts.at(id.0).text
    }

    /// The line, from 1, of the setting that named the text at a place first; 0 where that was no setting of the file.
    pub fn line(&self, id: TableId) -> u64
        requires { id.0 < length self.now.texts }
        ensures { slice_get (map (λ one. one.line) self.now.texts) id.0 ≡ Some result }
    {
        self.texts.at(id.0).line
    }
}
