//! What the settings of a main.cf say. bench/expansion.py asks a row of its own. One function alone owns settings.
//!
//! The text of a row is a main.cf, and its prefix asks what the value of a parameter says (`value NAME`), the line of its last
//! setting (`line NAME`, and `behind NAME` where `mail_name = b` counts after the text), the line and the items of a class
//! (`class NAME`), what is read of a parameter whatever there is of others (`known NAME`, and `known` the first refusal of the
//! classes), the table texts (`tables`), how many parameters have their places (`places`), or the lengths of the values of so many
//! settings with ten names each, summed (`many NUMBER`). A text that is refused says the line of that.
use crate::add_number;
use crate::known::add_known;
use crate::many::add_many;
use pf_base::{Bytes, ConfFault, List, NoMemory, Specs, TableId};
use pf_catalogue::{Kind, PARAMS, Param, param};
use pf_maincf::{MainCf, Setting};
use pf_params::Settings;
use std::alloc::Global;

/// What is asked of the settings of a main.cf: what the value of a parameter says, or its line; the items of a class; the table
/// texts; or how long the values of so many settings are.
#[derive(Clone, Copy)]
pub enum Question<'a> {
    Value(&'a [u8]),
    Line(&'a [u8]),
    Class(&'a [u8]),
    Tables,
    Many(u64),
}

// Adds items, each in angle brackets.
fn add_items(said: &mut Bytes, items: &List<Bytes>) -> Result<(), NoMemory> {
    for item in items.as_slice() {
        said.extend_all(&[b"<", item.as_slice(), b">"])?;
    }
    Ok(())
}

// Adds what the value of a parameter says.
fn add_value(
    alloc: Global,
    said: &mut Bytes,
    settings: &Settings,
    p: Param,
) -> Result<(), NoMemory> {
    match p.kind() {
        Kind::Number { .. } => add_number(alloc, said, settings.number(p)),
        Kind::Code => add_number(alloc, said, settings.number(p)),
        Kind::Yes => said.extend(yes_text(settings.yes(p))),
        Kind::Maps => add_items(said, settings.items(p)),
        Kind::Domains => add_items(said, settings.items(p)),
        Kind::Networks => add_items(said, settings.items(p)),
        Kind::Hosts => add_items(said, settings.items(p)),
        Kind::Restrictions => add_items(said, settings.items(p)),
        Kind::AddressKinds => add_items(said, settings.items(p)),
        Kind::Extensions => add_items(said, settings.items(p)),
        Kind::Interfaces => add_items(said, settings.items(p)),
        Kind::RewriteClients => add_items(said, settings.items(p)),
        Kind::Names => add_items(said, settings.items(p)),
        Kind::Text => said.extend(b"text"),
        Kind::Origin => said.extend(b"text"),
        Kind::FixedYes => said.extend(b"text"),
        Kind::Unset => said.extend(b"text"),
    }
}

fn yes_text(yes: bool) -> &'static [u8] {
    if yes { b"yes" } else { b"no" }
}

// Adds what is asked of the parameter of this name.
fn add_named(
    alloc: Global,
    said: &mut Bytes,
    settings: &Settings,
    name: &[u8],
    asks_line: bool,
) -> Result<(), NoMemory> {
    match param(name) {
        None => said.extend(b"none"),
        Some(p) => {
            if asks_line {
                add_number(alloc, said, settings.line(p))
            } else {
                add_value(alloc, said, settings, p)
            }
        }
    }
}

// Adds the line of a class with its items.
fn add_class(
    alloc: Global,
    said: &mut Bytes,
    settings: &Settings,
    name: &[u8],
) -> Result<(), NoMemory> {
    match (settings.class_line(name), settings.class_items(name)) {
        (Some(line), Some(items)) => {
            add_number(alloc, said, line)?;
            said.push(b' ')?;
            add_items(said, items)
        }
        _ => said.extend(b"none"),
    }
}

// Adds the table texts, each after its line.
fn add_tables(alloc: Global, said: &mut Bytes, specs: &Specs) -> Result<(), NoMemory> {
    for n in 0..specs.len() {
        if n < specs.len() {
            add_number(alloc, said, specs.line(TableId(n)))?;
            let text = specs.text(TableId(n));
            said.extend_all(&[b" ", text.as_slice(), b"|"])?;
        }
    }
    Ok(())
}

// How long the value of the setting of a number is; 0 where it is refused.
fn length_of(alloc: Global, settings: &Settings, n: u64) -> Result<u64, NoMemory> {
    let mut text = Bytes::from_slice(alloc, b"$s")?;
    add_number(alloc, &mut text, n)?;
    match settings.expand(alloc, text.as_slice()) {
        Ok(value) => Ok(value.len()),
        Err(ConfFault::Refused(_)) => Ok(0),
        Err(ConfFault::NoMemory) => Err(NoMemory),
    }
}

// Adds the lengths of the values of so many, summed.
fn add_lengths(
    alloc: Global,
    said: &mut Bytes,
    settings: &Settings,
    count: u64,
) -> Result<(), NoMemory> {
    let mut length: u64 = 0;
    for n in 0..count {
        length = length.saturating_add(length_of(alloc, settings, n)?);
    }
    add_number(alloc, said, length)
}

fn answer(
    alloc: Global,
    said: &mut Bytes,
    settings: &Settings,
    question: Question<'_>,
) -> Result<(), NoMemory> {
    match question {
        Question::Value(name) => add_named(alloc, said, settings, name, false),
        Question::Line(name) => add_named(alloc, said, settings, name, true),
        Question::Class(name) => add_class(alloc, said, settings, name),
        Question::Tables => add_tables(alloc, said, &settings.specs(alloc)?),
        Question::Many(count) => add_lengths(alloc, said, settings, count),
    }
}

/// Adds the line of a refusal.
pub fn add_fault(alloc: Global, said: &mut Bytes, fault: ConfFault) -> Result<(), NoMemory> {
    match fault {
        ConfFault::NoMemory => Err(NoMemory),
        ConfFault::Refused(refused) => said.extend(refused.line(alloc)?.as_slice()),
    }
}

// Adds the answer of settings that count after those of a main.cf too, or the line of their refusal.
fn settings_answer(
    alloc: Global,
    said: &mut Bytes,
    main: &MainCf,
    over: &List<Setting>,
    question: Question<'_>,
) -> Result<(), NoMemory> {
    match Settings::new(alloc, main, over) {
        Ok(settings) => answer(alloc, said, &settings, question),
        Err(fault) => add_fault(alloc, said, fault),
    }
}

/// Adds the answer of a main.cf, or the line of its refusal. So many settings of another line that say `mail_name = b` count
/// after its own.
pub fn asked(
    alloc: Global,
    said: &mut Bytes,
    text: &[u8],
    behind: u64,
    question: Question<'_>,
) -> Result<(), NoMemory> {
    let mut over = List::new(alloc);
    for _ in 0..behind {
        over.push(Setting {
            line: 7,
            name: Bytes::from_slice(alloc, b"mail_name")?,
            value: Bytes::from_slice(alloc, b"b")?,
        })?;
    }
    match MainCf::read(alloc, b"main.cf", text) {
        Ok(main) => settings_answer(alloc, said, &main, &over, question),
        Err(fault) => add_fault(alloc, said, fault),
    }
}

// Adds how many parameters have the place of which they are the parameter.
fn add_places(alloc: Global, said: &mut Bytes) -> Result<(), NoMemory> {
    let mut count: u64 = 0;
    for place in 0..PARAMS {
        if Param::at(place).place() == place {
            count = count.saturating_add(1);
        }
    }
    add_number(alloc, said, count)
}

/// Adds what is said of a main.cf, of what a row asks.
pub fn add_said(
    alloc: Global,
    said: &mut Bytes,
    prefix: &str,
    text: &[u8],
) -> Result<(), NoMemory> {
    let (kind, name) = prefix.split_once(' ').unwrap_or((prefix, ""));
    match kind {
        "value" => asked(alloc, said, text, 0, Question::Value(name.as_bytes())),
        "line" => asked(alloc, said, text, 0, Question::Line(name.as_bytes())),
        "behind" => asked(alloc, said, text, 1, Question::Line(name.as_bytes())),
        "class" => asked(alloc, said, text, 0, Question::Class(name.as_bytes())),
        "tables" => asked(alloc, said, text, 0, Question::Tables),
        "known" => add_known(alloc, said, text, name.as_bytes()),
        "places" => add_places(alloc, said),
        "many" => add_many(alloc, said, name.parse::<u64>().unwrap_or(0)),
        _ => said.extend(b"no such kind"),
    }
}
