//! A main.cf that was read.
ghost use Rattle.std.specs.Prelude.{◌≡◌, slice_get, IfOk};
ghost use Rattle.std.specs.Option.{option_and_then, option_copied};
ghost use Rattle.pf_base.specs.Clauses.Unless.{Unless};
ghost use Rattle.pf_base.specs.Clauses.Faults.{as_fault};
ghost use Rattle.pf_maincf.specs.Settings as settings;
ghost use Rattle.pf_maincf.specs.Settings.{conf_of, last_setting};

use crate::places::{Places, places_of};
use crate::setting::{Setting, is_name, setting_of};
use pf_base::{Bytes, Cause, ConfFault, List, Logical, NoMemory, TextFault, logical_lines, refuse};
use std::alloc::Global;
use std::marker::Model;

/// The name of a file and its settings in order, with the places of the last ones. A contract sees the name and the settings.
#[derive(Drop)]
pub struct MainCf {
    file: Bytes,
    settings: List<Setting>,
    places: Places,
}

impl Model for MainCf {
    ghost use Rattle.pf_maincf.specs.Clauses.Places.{AreLast, place_in};
    ghost use Rattle.pf_maincf.specs.Settings.{Conf};

    ghost Value = { Conf };

    ghost view = { λ conf. record { file = conf.file; settings = conf.settings } };

    ghost invariant = { λ conf. AreLast (place_in conf.places) conf.settings };
}

// The settings of logical lines in order.
fn settings_of(alloc: Global, file: &[u8], lines: &[Logical]) -> Result<List<Setting>, ConfFault>
    ensures { Unless result ConfFault.NoMemory (λ r. r ≡ as_fault (settings.settings_of file.now lines.now)) }
{
    let mut settings = List::new(alloc);
    for logical in lines {
        let Some(setting) = setting_of(alloc, logical)? else {
            return Err(refuse(alloc, file, logical.line, Cause::C2, b""));
        };
        if !is_name(setting.name.as_slice()) {
            return Err(refuse(alloc, file, logical.line, Cause::C3, b""));
        }
        settings.push(setting)?;
    }
    Ok(settings)
}

// The setting at a place, if there is one.
fn setting_at(settings: &[Setting], place: Option<usize>) -> Option<&Setting>
    ensures { option_copied result ≡ option_and_then (slice_get settings.now) place }
{
    match place {
        None => None,
        Some(place) => settings.get(place),
    }
}

// A main.cf of this name and these settings.
fn conf_with(alloc: Global, file: &[u8], settings: List<Setting>) -> Result<MainCf, NoMemory>
    ensures { IfOk result (λ conf. conf ≡ record { file = file.now; settings = settings }) }
{
    let file = Bytes::from_slice(alloc, file)?;
    MainCf::new(alloc, file, settings)
}

impl MainCf {
    /// A main.cf of this name and these settings.
    pub fn new(alloc: Global, file: Bytes, settings: List<Setting>) -> Result<MainCf, NoMemory>
        ensures { IfOk result (λ conf. conf ≡ record { file = file; settings = settings }) }
    {
        let places = places_of(alloc, settings.as_slice())?;
        Ok(MainCf {
            file,
            settings,
            places,
        })
    }

    /// The settings of a main.cf with this name and this text (postconf(5), main.cf format). Where its first line that is not
    /// ignored starts with space, it is refused as C1, else at its first logical line that has no equals sign, as C2, or whose
    /// name is none, as C3.
    pub fn read(alloc: Global, file: &[u8], text: &[u8]) -> Result<MainCf, ConfFault>
        ensures { Unless result ConfFault.NoMemory (λ r. r ≡ as_fault (conf_of file.now text.now)) }
    {
        let lines = match logical_lines(alloc, text) {
            Ok(lines) => lines,
            Err(TextFault::Continuation { line }) => {
                return Err(refuse(alloc, file, line, Cause::C1, b""));
            }
            Err(TextFault::NoMemory) => return Err(ConfFault::NoMemory),
        };
        let settings = settings_of(alloc, file, lines.as_slice())?;
        let conf = conf_with(alloc, file, settings)?;
        Ok(conf)
    }

    /// The name of the file, as it was handed in.
    pub fn file(&self) -> &Bytes
        ensures { result.now ≡ self.now.file }
    {
        &self.file
    }

    /// All settings in the order of their lines.
    pub fn settings(&self) -> &List<Setting>
        ensures { result.now ≡ self.now.settings }
    {
        &self.settings
    }

    /// The last setting of a name, which is the one that counts; None where the name is not set.
    pub fn last(&self, name: &[u8]) -> Option<&Setting>
        ensures { option_copied result ≡ last_setting self.now.settings name.now }
    {
        setting_at(self.settings.as_slice(), self.places.get(name))
    }

    /// Whether a name is set.
    pub fn is_set(&self, name: &[u8]) -> bool
        ensures { result ≡ settings.is_set self.now name.now }
    {
        self.last(name).is_some()
    }

    /// The line of the last setting of a name, 0 where it is not set.
    pub fn line(&self, name: &[u8]) -> u64
        ensures { result ≡ settings.line_of self.now name.now }
    {
        match self.last(name) {
            None => 0,
            Some(setting) => setting.line,
        }
    }
}
