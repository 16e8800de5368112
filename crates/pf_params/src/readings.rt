//! What is read of parameters.
ghost use Rattle.std.specs.Prelude.{◌≡◌, ◌<◌, IfOk};
ghost use Rattle.pf_catalogue.specs.Catalogue.{catalogue, row_at};
ghost use Rattle.pf_catalogue.specs.Clauses.RowsMeant.{row_meant};
ghost use Rattle.pf_params.specs.Clauses.Readings as turns;
ghost use Rattle.pf_params.specs.Parameters as spec;

use crate::known::Known;
use crate::refusals::{bad_value, cause_of, refusal_of};
use pf_base::{Bytes, Cause, List, Meaning, NoMemory, Refused};
use pf_catalogue::{Kind, PARAMS, Param, Row, Value, value_of};
use std::alloc::Global;

/// What is read of a parameter: the line of its last setting, from 1, 0 where it is in no file or is not set; its text
/// before names are expanded; its value; and what that says.
#[derive(Debug, Drop)]
pub struct Reading {
    pub line: u64,
    pub raw: Bytes,
    pub text: Bytes,
    pub value: Value,
}

// Whether a parameter of a kind may be as it is, set or not.
fn may_stand(kind: Kind, is_set: bool) -> bool
    ensures { result ≡ spec.may_stand kind is_set }
{
    match kind {
        Kind::Unset => !is_set,
        _ => true,
    }
}

// The text of a parameter: that of its last setting, or its default, which is its value where it is taken out of another one.
fn raw_text(alloc: Global, known: &Known, row: Row<'_>, value: &Bytes) -> Result<Bytes, NoMemory>
    ensures { IfOk result (λ raw. raw ≡ spec.raw_text known.now (row_meant row.entry) value.now) }
{
    match known.last(row.0) {
        Some(setting) => setting.value.copy(alloc),
        None => match row.2 {
            Meaning::Is(text) => Bytes::from_slice(alloc, text),
            Meaning::DomainOf(_) => value.copy(alloc),
        },
    }
}

// What is read of a parameter with this value.
fn reading_with(
    alloc: Global,
    known: &Known,
    row: Row<'_>,
    text: Bytes,
) -> Result<Result<Reading, Cause>, NoMemory>
    ensures { IfOk result (λ reading. reading ≡ spec.reading_with known.now (row_meant row.entry) text) }
{
    let Some(value) = value_of(alloc, row.1, text.as_slice())? else {
        return Ok(Err(bad_value(row.1)));
    };
    if !may_stand(row.1, known.is_set(row.0)) {
        return Ok(Err(Cause::C14));
    }
    let raw = raw_text(alloc, known, row, &text)?;
    Ok(Ok(Reading {
        line: known.line(row.0),
        raw,
        text,
        value,
    }))
}

/// What is read of a parameter or a class, or the cause of its refusal.
pub(crate) fn reading_of(
    alloc: Global,
    known: &Known,
    row: Row<'_>,
) -> Result<Result<Reading, Cause>, NoMemory>
    ensures { IfOk result (λ reading. reading ≡ spec.reading_of known.now (row_meant row.entry)) }
{
    match known.name_value(alloc, row.0)? {
        Err(flaw) => Ok(Err(cause_of(flaw))),
        Ok(text) => reading_with(alloc, known, row, text),
    }
}

impl Known {
    /// What is read of a parameter, whatever there is of the others, or the cause of its refusal: C5 where a dollar sign
    /// begins no form, C4 where names are nested more than 100 deep, C16 where a value is longer than 1,048,576 bytes, C6
    /// where the value is none of its kind, C14 where the parameter can't be set so (postconf(5)).
    pub fn reading(&self, alloc: Global, p: Param) -> Result<Result<Reading, Cause>, NoMemory>
        ensures { IfOk result (λ reading. reading ≡ spec.reading_of self.now (row_at p)) }
    {
        reading_of(alloc, self, p.row())
    }

    /// The refusal of a name's setting, with the line of the last one, 0 where it is in no file or is not set.
    pub fn refusal(&self, alloc: Global, name: &[u8], cause: Cause) -> Result<Refused, NoMemory>
        ensures { IfOk result (λ refusal. refusal ≡ spec.refusal_of self.now name.now cause) }
    {
        refusal_of(alloc, self, name, cause)
    }
}

/// What is read of all parameters in the order of the table, or the first refusal.
pub(crate) fn readings_of(
    alloc: Global,
    known: &Known,
) -> Result<Result<List<Reading>, Refused>, NoMemory>
    ensures { IfOk result (λ readings. readings ≡ turns.readings_of known.now catalogue) }
{
    let mut readings = List::new(alloc);
    for place in 0..PARAMS {
        let row = Param::at(place).row();
        match reading_of(alloc, known, row)? {
            Ok(reading) => readings.push(reading)?,
            Err(cause) => return Ok(Err(refusal_of(alloc, known, row.0, cause)?)),
        }
    }
    Ok(Ok(readings))
}
