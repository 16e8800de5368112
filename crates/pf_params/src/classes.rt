//! The classes of restrictions that are set.
ghost use Rattle.std.specs.Prelude.{◌≡◌, ◌∷◌, [], ◌++◌, IfOk};
ghost use Rattle.std.specs.List.{fold};
ghost use Rattle.std.specs.Option.{option_copied, option_map};
ghost use Rattle.pf_params.specs.Classes as spec;
ghost use Rattle.pf_params.specs.Parameters as parameters;

use crate::known::Known;
use crate::readings::{Reading, reading_of};
use crate::refusals::{lesser, refusal_of};
use pf_base::{Bytes, Cause, List, Meaning, NoMemory, Refused};
use pf_catalogue::{Kind, Row, param};
use std::alloc::Global;

/// A class: its name, the line of its last setting, and its items.
#[derive(Debug, Drop)]
pub(crate) struct Class {
    pub(crate) name: Bytes,
    pub(crate) line: u64,
    pub(crate) items: List<Bytes>,
}

/// The classes that have items, in order, and the refusal that comes first, if there is any.
#[derive(Debug, Drop)]
pub(crate) struct Classes {
    pub(crate) held: List<Class>,
    pub(crate) refusal: Option<Refused>,
}

/// The names of the classes, as smtpd_restriction_classes lists them.
pub(crate) fn class_names(alloc: Global, known: &Known) -> Result<List<Bytes>, NoMemory>
    ensures { IfOk result (λ names. names ≡ spec.class_names known.now) }
{
    let Some(p) = param(b"smtpd_restriction_classes") else {
        return Ok(List::new(alloc));
    };
    match reading_of(alloc, known, p.row())? {
        Err(_) => Ok(List::new(alloc)),
        Ok(reading) => Ok(reading.value.into_items(alloc)),
    }
}

// What is read of a class, which is that of a parameter whose values are restrictions.
fn class_reading(
    alloc: Global,
    known: &Known,
    name: &[u8],
) -> Result<Result<Reading, Cause>, NoMemory>
    ensures { IfOk result (λ reading. reading ≡ parameters.reading_of known.now (spec.class_row name.now)) }
{
    reading_of(
        alloc,
        known,
        Row(name, Kind::Restrictions, Meaning::Is(b"")),
    )
}

// Adds a class of this name, if it is set.
fn add_class(
    alloc: Global,
    known: &Known,
    name: &Bytes,
    classes: Classes,
) -> Result<Classes, NoMemory>
    ensures held { IfOk result (λ more. more.held ≡ classes.held ++ spec.classes_of known.now (spec.class_rows known.now (name.now ∷ []))) }
    ensures refusal { IfOk result (λ more. more.refusal ≡ fold parameters.with_lesser classes.refusal (parameters.refusals known.now (spec.class_rows known.now (name.now ∷ [])))) }
{
    let mut classes = classes;
    if !known.is_set(name.as_slice()) {
        return Ok(classes);
    }
    match class_reading(alloc, known, name.as_slice())? {
        Ok(reading) => classes.held.push(Class {
            name: name.copy(alloc)?,
            line: reading.line,
            items: reading.value.into_items(alloc),
        })?,
        Err(cause) => {
            let refusal = refusal_of(alloc, known, name.as_slice(), cause)?;
            classes.refusal = Some(lesser(classes.refusal, refusal));
        }
    }
    Ok(classes)
}

/// The classes of these names that are set, and the refusal that comes first, where this one came before.
pub(crate) fn classes_of(
    alloc: Global,
    known: &Known,
    names: &[Bytes],
    before: Option<Refused>,
) -> Result<Classes, NoMemory>
    ensures held { IfOk result (λ classes. classes.held ≡ spec.classes_of known.now (spec.class_rows known.now names.now)) }
    ensures refusal { IfOk result (λ classes. classes.refusal ≡ fold parameters.with_lesser before (parameters.refusals known.now (spec.class_rows known.now names.now))) }
{
    let mut classes = Classes {
        held: List::new(alloc),
        refusal: before,
    };
    for name in names {
        classes = add_class(alloc, known, name, classes)?;
    }
    Ok(classes)
}

impl Known {
    /// Of this refusal, if there is one, and those of the classes of restrictions that are listed and set, the one whose name
    /// is least in byte order, this one before that of a class of its name. A class is refused as C5, C4 or C16 where it has
    /// no value, and as C6 where a brace in that has no partner (postconf(5), smtpd_restriction_classes).
    pub fn class_refusal(
        &self,
        alloc: Global,
        before: Option<Refused>,
    ) -> Result<Option<Refused>, NoMemory>
        ensures { IfOk result (λ refusal. refusal ≡ fold parameters.with_lesser before (parameters.refusals self.now (spec.class_rows self.now (spec.class_names self.now)))) }
    {
        let names = class_names(alloc, self)?;
        let classes = classes_of(alloc, self, names.as_slice(), before)?;
        Ok(classes.refusal)
    }
}

/// The class of a name.
pub(crate) fn class_named<'a>(classes: &'a [Class], name: &[u8]) -> Option<&'a Class>
    ensures { option_copied result ≡ spec.class_named classes.now name.now }
{
    classes.iter().find(|class| class.name.as_slice() == name)
}
