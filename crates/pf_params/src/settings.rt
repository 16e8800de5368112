//! The settings of a main.cf, with their values.
ghost use Rattle.std.specs.Prelude.{◌≡◌, Some, true, IfOk, is_some};
ghost use Rattle.std.specs.Option.{option_copied, option_map};
ghost use Rattle.std.specs.Result.{result_err};
ghost use Rattle.pf_base.specs.Clauses.Unless.{Unless};
ghost use Rattle.pf_catalogue.specs.Catalogue.{row_at};
ghost use Rattle.pf_catalogue.specs.Values.{IsNumberOf, are_items};
ghost use Rattle.pf_catalogue.specs.declared.kind.Kind.TheVariants as kind;
ghost use Rattle.pf_catalogue.specs.declared.value.Value.TheVariants as value;
ghost use Rattle.pf_base.specs.Clauses.Faults.{as_fault};
ghost use Rattle.pf_maincf.specs.Settings.{line_of};
ghost use Rattle.pf_params.specs.Accepted as spec;
ghost use Rattle.pf_params.specs.Clauses.Readings as turns;
ghost use Rattle.pf_params.specs.Parameters as parameters;
ghost use Rattle.pf_params.specs.Settled as settled;

use crate::classes::{Class, Classes, class_named, class_names, classes_of};
use crate::known::Known;
use crate::readings::{Reading, readings_of};
use pf_base::{Bytes, ConfFault, List, NoMemory, Refused};
use pf_catalogue::Param;
use pf_maincf::{MainCf, Setting};
use std::alloc::Global;
use std::marker::Model;

/// The settings of a main.cf and those that count after them, none of which is refused: each parameter has a value of its
/// kind. A contract sees the name of the file and all settings in order.
#[derive(Drop)]
pub struct Settings {
    known: Known,
    readings: List<Reading>,
    classes: List<Class>,
}

impl Model for Settings {
    ghost use Rattle.pf_maincf.specs.Settings.{Conf};
    ghost use Rattle.std.specs.Prelude.{◌≡◌, Ok};
    ghost use Rattle.pf_catalogue.specs.Catalogue.{catalogue};
    ghost use Rattle.pf_params.specs.Accepted.{classes_in};
    ghost use Rattle.pf_params.specs.Clauses.Readings.{readings_of};

    ghost Value = { Conf };

    ghost view = { λ s. s.known };

    ghost invariant = { λ s. (readings_of s.known catalogue ≡ Ok s.readings) × (s.classes ≡ classes_in s.known) };
}

// Readings, if there are any, and the refusal, if there is one.
fn parted(
    alloc: Global,
    readings: Result<List<Reading>, Refused>,
) -> (List<Reading>, Option<Refused>)
    ensures held { result.0 ≡ turns.held_readings readings }
    ensures refusal { result.1 ≡ result_err readings }
{
    match readings {
        Ok(readings) => (readings, None),
        Err(refusal) => (List::new(alloc), Some(refusal)),
    }
}

// The settings, unless one is refused.
fn read(
    alloc: Global,
    main: &MainCf,
    over: &List<Setting>,
) -> Result<Result<Settings, Refused>, NoMemory>
    ensures { IfOk result (λ settings. settings ≡ spec.accepted main.now over.now) }
{
    let known = Known::new(alloc, main, over)?;
    let names = class_names(alloc, &known)?;
    let (readings, refusal) = parted(alloc, readings_of(alloc, &known)?);
    let Classes { held, refusal } = classes_of(alloc, &known, names.as_slice(), refusal)?;
    match refusal {
        Some(refusal) => Ok(Err(refusal)),
        None => Ok(Ok(Settings {
            known,
            readings,
            classes: held,
        })),
    }
}

impl Settings {
    /// The settings of a main.cf, and after them those that count after them, which have line 0. Parameters and classes of
    /// restrictions are looked at in byte order of their names, and the first that is refused is named, with the line of its
    /// last setting, 0 where it is a default: as C5 where a dollar sign begins no form, as C4 where names are nested more
    /// than 100 deep, as C16 where a value is longer than 1,048,576 bytes, as C6 where a value is none of its kind, and as
    /// C14 where a parameter can't be set so (postconf(5)).
    pub fn new(alloc: Global, main: &MainCf, over: &List<Setting>) -> Result<Settings, ConfFault>
        ensures { Unless result ConfFault.NoMemory (λ r. r ≡ as_fault (spec.accepted main.now over.now)) }
    {
        match read(alloc, main, over)? {
            Err(refusal) => Err(ConfFault::Refused(refusal)),
            Ok(settings) => Ok(settings),
        }
    }

    /// The settings as they are.
    pub fn known(&self) -> &Known
        ensures { result.now ≡ self.now }
    {
        &self.known
    }

    /// The name of the file.
    pub fn file(&self) -> &Bytes
        ensures { result.now ≡ self.now.file }
    {
        self.known.file()
    }

    // What is read of a parameter.
    pub(crate) fn reading(&self, p: Param) -> &Reading
        ensures { parameters.reading_of self.now (row_at p) ≡ Ok result.now }
    {
        self.readings.at(u64::from(p.place()))
    }

    /// The text of a parameter's last setting, or its default, before the values of names are in it.
    pub fn raw(&self, p: Param) -> &Bytes
        ensures { result.now ≡ spec.raw_of self.now (row_at p) }
    {
        &self.reading(p).raw
    }

    /// The value of a parameter. It is one of its kind.
    pub fn text(&self, p: Param) -> &Bytes
        ensures text { result.now ≡ spec.text_of self.now (row_at p) }
        ensures kind { is_some (spec.said_by self.now (row_at p)) ≡ true }
    {
        &self.reading(p).text
    }

    /// The line of a parameter's last setting, from 1; 0 where it is in no file or is not set.
    pub fn line(&self, p: Param) -> u64
        ensures { result ≡ line_of self.now (row_at p).name }
    {
        self.reading(p).line
    }

    /// The number that is the value of a parameter, or the code of a reply, from 400 to 599. It is one of its kind.
    pub fn number(&self, p: Param) -> u64
        requires { spec.is_numeric (row_at p).kind ≡ true }
        ensures said { spec.said_by self.now (row_at p) ≡ Some (value.Number result) }
        ensures kind { IsNumberOf (row_at p).kind result }
    {
        match self.reading(p).value.number() {
            Some(number) => number,
            None => unreachable!(),
        }
    }

    /// Whether the value of a parameter is yes.
    pub fn yes(&self, p: Param) -> bool
        requires { (row_at p).kind ≡ kind.Yes }
        ensures { spec.said_by self.now (row_at p) ≡ Some (value.Yes result) }
    {
        match self.reading(p).value.answer() {
            Some(yes) => yes,
            None => unreachable!(),
        }
    }

    /// The items of the list that is the value of a parameter. They may be in a list of its kind.
    pub fn items(&self, p: Param) -> &List<Bytes>
        requires { spec.is_list (row_at p).kind ≡ true }
        ensures items { result.now ≡ spec.items_of self.now (row_at p) }
        ensures kind { are_items (row_at p).kind result.now ≡ true }
    {
        match self.reading(p).value.list() {
            Some(items) => items,
            None => unreachable!(),
        }
    }

    // The classes that are set.
    pub(crate) fn classes(&self) -> &[Class]
        ensures { result.now ≡ spec.classes_in self.now }
    {
        self.classes.as_slice()
    }

    /// The items of a class that smtpd_restriction_classes lists and that is set; None of any other name.
    pub fn class_items(&self, name: &[u8]) -> Option<&List<Bytes>>
        ensures { option_copied result ≡ option_map (λ class. class.items) (spec.class_in self.now name.now) }
    {
        match class_named(self.classes(), name) {
            None => None,
            Some(class) => Some(&class.items),
        }
    }

    /// The line of the last setting of such a class; None of any other name.
    pub fn class_line(&self, name: &[u8]) -> Option<u64>
        ensures { result ≡ option_map (λ class. class.line) (spec.class_in self.now name.now) }
    {
        match class_named(self.classes(), name) {
            None => None,
            Some(class) => Some(class.line),
        }
    }

    /// The value of a text in which names stand for the values of their settings, and of the defaults of parameters that are
    /// not set (postconf(5), main.cf format). Where a dollar sign begins no form it is refused as C5, where names are nested
    /// more than 100 deep as C4, and where a value is longer than 1,048,576 bytes as C16, each with line 0 and no name.
    pub fn expand(&self, alloc: Global, text: &[u8]) -> Result<Bytes, ConfFault>
        ensures { Unless result ConfFault.NoMemory (λ r. r ≡ as_fault (settled.value_in self.now text.now)) }
    {
        self.known.expand(alloc, text)
    }
}
