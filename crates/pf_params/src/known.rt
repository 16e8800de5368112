//! The settings of a main.cf and those that count after them, with what is known of the values of their names.
ghost use Rattle.std.specs.Prelude.{◌≡◌, ◌++◌, map, IfOk, OnOk};
ghost use Rattle.std.specs.Option.{option_copied};
ghost use Rattle.pf_base.specs.Clauses.Meant.{meant};
ghost use Rattle.pf_base.specs.Clauses.Unless.{Unless};
ghost use Rattle.pf_expand.specs.Names.{expanded};
ghost use Rattle.pf_base.specs.Clauses.Faults.{as_fault};
ghost use Rattle.pf_maincf.specs.Settings.{is_set, last_setting, line_of};
ghost use Rattle.pf_params.specs.Settled as spec;

use crate::refusals::cause_of;
use crate::table::{set_default_values, set_names};
use pf_base::{Bytes, ConfFault, List, Meaning, NoMemory, refuse};
use pf_expand::{Flaw, Names, Values};
use pf_maincf::{MainCf, Setting};
use std::alloc::Global;
use std::marker::Model;

/// The settings of a main.cf and those that count after them, before any of them is looked at, with what is known of the
/// values of names. A contract sees the name of the file and all settings in order.
#[derive(Drop)]
pub struct Known {
    main: MainCf,
    values: Values,
}

impl Model for Known {
    ghost use Rattle.pf_expand.specs.Clauses.Meanings.{AreNames};
    ghost use Rattle.pf_maincf.specs.Settings.{Conf};
    ghost use Rattle.pf_params.specs.Settled.{settled_source};

    ghost Value = { Conf };

    ghost view = { λ s. s.main };

    ghost invariant = { λ s. AreNames s.values (settled_source s.main) };
}

// Adds settings after others, at line 0 where they are in no file.
fn add_settings(
    alloc: Global,
    all: &mut List<Setting>,
    settings: &[Setting],
    in_file: bool,
) -> Result<(), NoMemory>
    ensures { OnOk result (all.new ≡ all.old ++ map (spec.line_if in_file) settings.now) }
{
    for setting in settings {
        all.push(Setting {
            line: if in_file { setting.line } else { 0 },
            name: setting.name.copy(alloc)?,
            value: setting.value.copy(alloc)?,
        })?;
    }
    Ok(())
}

impl Known {
    /// The settings of a main.cf, and after them those that count after them, which have line 0 (postconf(5), main.cf
    /// format; postconf(1), -o).
    pub fn new(alloc: Global, main: &MainCf, over: &List<Setting>) -> Result<Known, NoMemory>
        ensures { IfOk result (λ known. known ≡ spec.settled main.now over.now) }
    {
        let mut settings = List::new(alloc);
        add_settings(alloc, &mut settings, main.settings().as_slice(), true)?;
        add_settings(alloc, &mut settings, over.as_slice(), false)?;
        let mut names = Names::new(alloc);
        set_default_values(alloc, &mut names)?;
        set_names(alloc, &mut names, settings.as_slice())?;
        let values = Values::new(alloc, names)?;
        let main = MainCf::new(alloc, main.file().copy(alloc)?, settings)?;
        Ok(Known { main, values })
    }

    /// The name of the file.
    pub fn file(&self) -> &Bytes
        ensures { result.now ≡ self.now.file }
    {
        self.main.file()
    }

    /// All settings in order.
    pub fn settings(&self) -> &List<Setting>
        ensures { result.now ≡ self.now.settings }
    {
        self.main.settings()
    }

    /// The last setting of a name, which is the one that counts; None where it is not set.
    pub fn last(&self, name: &[u8]) -> Option<&Setting>
        ensures { option_copied result ≡ last_setting self.now.settings name.now }
    {
        self.main.last(name)
    }

    /// Whether a name is set.
    pub fn is_set(&self, name: &[u8]) -> bool
        ensures { result ≡ is_set self.now name.now }
    {
        self.main.is_set(name)
    }

    /// The line of the last setting of a name, 0 where it is in no file or is not set.
    pub fn line(&self, name: &[u8]) -> u64
        ensures { result ≡ line_of self.now name.now }
    {
        self.main.line(name)
    }

    /// The value of a text in which names stand for the values of their settings, and of the defaults of parameters that are
    /// not set (postconf(5), main.cf format). Where a dollar sign begins no form it is refused as C5, where names are nested
    /// more than 100 deep as C4, and where a value is longer than 1,048,576 bytes as C16, each with line 0 and no name.
    pub fn expand(&self, alloc: Global, text: &[u8]) -> Result<Bytes, ConfFault>
        ensures { Unless result ConfFault.NoMemory (λ r. r ≡ as_fault (spec.value_in self.now text.now)) }
    {
        match self.text_value(alloc, text)? {
            Ok(bytes) => Ok(bytes),
            Err(flaw) => Err(refuse(alloc, self.file().as_slice(), 0, cause_of(flaw), &[])),
        }
    }

    // The value of a text, or why there is none.
    fn text_value(&self, alloc: Global, text: &[u8]) -> Result<Result<Bytes, Flaw>, NoMemory>
        ensures { IfOk result (λ value. value ≡ expanded (spec.settled_source self.now) text.now) }
    {
        self.values.text(alloc, text)
    }

    /// The value of what a name stands for, or would stand for, or why there is none.
    pub fn meaning_value(
        &self,
        alloc: Global,
        meaning: Meaning<&[u8], &[u8]>,
    ) -> Result<Result<Bytes, Flaw>, NoMemory>
        ensures { IfOk result (λ value. value ≡ spec.meaning_value self.now (meant meaning.entry)) }
    {
        self.values.meaning(alloc, meaning)
    }

    /// The value of a name as it is alone, or why there is none.
    pub(crate) fn name_value(
        &self,
        alloc: Global,
        name: &[u8],
    ) -> Result<Result<Bytes, Flaw>, NoMemory>
        ensures { IfOk result (λ value. value ≡ spec.value_alone self.now name.now) }
    {
        self.values.name(alloc, name)
    }
}
