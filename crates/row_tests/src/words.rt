//! What pf_words says of words.
//!
//! A row asks of its text, words that blanks part, in which `@` is nothing, so that it stands for an empty word, and `_` a blank:
//! what `words_of` says (`words`), the names of the files of the record and the log (`sinks`), the text `a = 1` after the edit
//! that the words ask for (`edit`), and what a part of a word is (`setting`); `no words` has none.
use crate::add_number;
use pf_base::{Bytes, ConfFault, NoMemory};
use pf_maincf::MainCf;
use pf_table::Repeats;
use pf_words::{
    ConfMode, ConfWords, MapJob, MapWords, Shape, SmtpdWords, Words, assignment_of_word,
    assignments_of_words, sink_names, words_of,
};
use std::alloc::Global;

// A word as the rows write it.
fn word(alloc: Global, written: &str) -> Result<String, NoMemory> {
    let mut word = String::new(alloc);
    for c in written.chars() {
        match c {
            '@' => {}
            '_' => word.push(' ')?,
            _ => word.push(c)?,
        }
    }
    Ok(word)
}

fn words(alloc: Global, line: &str) -> Result<Vec<String>, NoMemory> {
    let mut words = Vec::new(alloc);
    for written in line.split(' ') {
        words.push(word(alloc, written)?)?;
    }
    Ok(words)
}

fn add_value(said: &mut Bytes, name: &[u8], value: &Option<Bytes>) -> Result<(), NoMemory> {
    match value {
        None => Ok(()),
        Some(value) => said.extend_all(&[name, value.as_slice()]),
    }
}

fn add_smtpd(alloc: Global, said: &mut Bytes, words: &SmtpdWords) -> Result<(), NoMemory> {
    said.extend(b"smtpd")?;
    add_value(said, b" c=", &words.folder)?;
    let client = words.client.print(alloc)?;
    said.extend_all(&[b" p=", client.as_slice(), b" m=", words.mail.as_slice()])?;
    add_value(said, b" l=", &words.log)?;
    said.extend(b" b=")?;
    add_number(alloc, said, words.budget)
}

fn mode_text(mode: &ConfMode) -> &'static [u8] {
    match mode {
        ConfMode::All => b"postconf all",
        ConfMode::Set => b"postconf set",
        ConfMode::Defaults => b"postconf defaults",
        ConfMode::Edit => b"postconf edit",
    }
}

fn shape_text(shape: &Shape) -> &'static [u8] {
    match shape {
        Shape::Both => b" both",
        Shape::Values => b" values",
        Shape::Names => b" names",
    }
}

fn add_postconf(said: &mut Bytes, words: &ConfWords) -> Result<(), NoMemory> {
    said.extend_all(&[mode_text(&words.mode), shape_text(&words.shape)])?;
    if words.expanded {
        said.extend(b" x")?;
    }
    add_value(said, b" c=", &words.folder)?;
    add_value(said, b" o=", &words.over)?;
    if words.rest.len() > 0 {
        said.push(b' ')?;
    }
    for word in words.rest.as_slice() {
        said.extend_all(&[b"<", word.as_slice(), b">"])?;
    }
    Ok(())
}

fn add_job(said: &mut Bytes, job: &MapJob) -> Result<(), NoMemory> {
    match job {
        MapJob::Build(repeats, warned) => {
            said.extend(match repeats {
                Repeats::First => b" first".as_slice(),
                Repeats::Last => b" last".as_slice(),
            })?;
            said.extend(if *warned {
                b" warned".as_slice()
            } else {
                b"".as_slice()
            })
        }
        MapJob::Query(key) => said.extend_all(&[b" <", key.as_slice(), b">"]),
        MapJob::QueryInput => said.extend(b" keys"),
        MapJob::Elements => said.extend(b" pairs"),
    }
}

fn add_postmap(alloc: Global, said: &mut Bytes, words: &MapWords) -> Result<(), NoMemory> {
    said.extend(b"postmap")?;
    add_job(said, &words.job)?;
    if words.folded {
        said.extend(b" folded")?;
    }
    said.extend_all(&[b" t=", words.table.as_slice(), b" b="])?;
    add_number(alloc, said, words.budget)
}

fn add_words(alloc: Global, said: &mut Bytes, list: &[String]) -> Result<(), NoMemory> {
    match words_of(alloc, list)? {
        None => said.extend(b"none"),
        Some(Words::Smtpd(words)) => add_smtpd(alloc, said, &words),
        Some(Words::Postconf(words)) => add_postconf(said, &words),
        Some(Words::Postmap(words)) => add_postmap(alloc, said, &words),
    }
}

fn add_name(said: &mut Bytes, prefix: &[u8], name: Option<&str>) -> Result<(), NoMemory> {
    match name {
        None => Ok(()),
        Some(name) => said.extend_all(&[prefix, name.as_bytes()]),
    }
}

fn add_sinks(alloc: Global, said: &mut Bytes, list: &[String]) -> Result<(), NoMemory> {
    let names = sink_names(alloc, list)?;
    add_name(said, b" m=", names.mail)?;
    add_name(said, b" l=", names.log)
}

// Adds the text of a main.cf after an edit by these words.
fn add_edited(alloc: Global, said: &mut Bytes, words: &ConfWords) -> Result<(), NoMemory> {
    let Some(sets) = assignments_of_words(alloc, words.rest.as_slice())? else {
        return said.extend(b"none");
    };
    match MainCf::edit(alloc, b"main.cf", b"a = 1\n", &sets) {
        Ok(text) => said.extend(text.as_slice()),
        Err(ConfFault::Refused(_)) => said.extend(b"refused"),
        Err(ConfFault::NoMemory) => Err(NoMemory),
    }
}

fn add_edit(alloc: Global, said: &mut Bytes, list: &[String]) -> Result<(), NoMemory> {
    match words_of(alloc, list)? {
        Some(Words::Postconf(words)) => add_edited(alloc, said, &words),
        _ => said.extend(b"none"),
    }
}

fn add_setting(alloc: Global, said: &mut Bytes, word: &str) -> Result<(), NoMemory> {
    match assignment_of_word(alloc, word.as_bytes())? {
        None => said.extend(b"none"),
        Some(set) => said.extend_all(&[set.name.as_slice(), b" = ", set.value.as_slice()]),
    }
}

// Adds what a part of a word is.
fn add_part(alloc: Global, said: &mut Bytes, kind: &str, word: &str) -> Result<(), NoMemory> {
    match kind {
        "no words" => add_words(alloc, said, &[]),
        "setting" => add_setting(alloc, said, word),
        _ => said.extend(b"no such kind"),
    }
}

/// Adds what is said of a text, of what a row asks.
pub fn add_said(alloc: Global, said: &mut Bytes, kind: &str, text: &str) -> Result<(), NoMemory> {
    let list = words(alloc, text)?;
    match kind {
        "words" => add_words(alloc, said, list.as_slice()),
        "sinks" => add_sinks(alloc, said, list.as_slice()),
        "edit" => add_edit(alloc, said, list.as_slice()),
        _ => add_part(alloc, said, kind, text),
    }
}
