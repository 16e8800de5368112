//! Reads rows of tables of patterns as they are written and of what is said of each, and prints the rows where pf_pcre says
//! otherwise, and how many rows there were.
//!
//! A row is `KIND¦TEXT¦ANSWER`, and a line feed is as `␤`. Of the kind `table` the text is that of a table, and
//! the answer `table` or the line of its refusal; of the kind `find` a key and from the next line on the text of a table, and
//! the value or `nothing`; of the kind `octets` the same, the key as numbers of its bytes parted by blanks; of the kind
//! `results` the text of a table, and its results parted by `,`, or `anything`; of the kind `repeat` a number, on the next
//! line a text before, on the third one that is as often as that, and on the fourth one after, which together are a
//! table, and the answer as of the kind `table`; of the kind `deep` how deep the groups of a pattern are nested, and the answer
//! as of the kind `table`; of the kind `keys` how often all keys are asked, on the next line the keys parted by `~`, and from
//! the third line on the text of a table, and the values of the keys parted by `~`, of which `nothing` is none; of the kind
//! `plain` the same text, and the answer `alike` where the keys have the values that the rules have one by one, each alone in a
//! table of its own (`plain.rt`), else the first key with another one. In the keys of `plain` the sign `↵` is a line feed and `¿` a byte that begins
//! no character. Rows that begin with `# ` are comments.
#![tactic(auto)]

mod compare;
mod plain;
mod tables;

use compare::compared;
use pf_base::{Bytes, NoMemory};
use std::alloc::Global;
use std::io;
use tables::{asked, found, judged, number, parted, results};

// The bytes that numbers parted by blanks name.
fn octets(alloc: Global, text: &[u8]) -> Result<Bytes, NoMemory> {
    let mut bytes = Bytes::new(alloc);
    for word in text.split(|b| *b == b' ') {
        if let Ok(word) = str::from_utf8(word) {
            if let Ok(number) = word.parse::<u8>() {
                bytes.push(number)?;
            }
        }
    }
    Ok(bytes)
}

// A text in which one part is so often.
fn repeated(alloc: Global, text: &[u8]) -> Result<Bytes, NoMemory> {
    let (times, rest) = parted(text);
    let (before, rest) = parted(rest);
    let (part, behind) = parted(rest);
    let mut text = Bytes::from_slice(alloc, before)?;
    for _ in 0..number(times) {
        for b in part {
            text.push(if *b == b'~' { b'\n' } else { *b })?;
        }
    }
    text.extend(behind)?;
    Ok(text)
}

// A table whose pattern is groups in groups, nested so deep.
fn nested(alloc: Global, text: &[u8]) -> Result<Bytes, NoMemory> {
    let mut table = Bytes::from_slice(alloc, b"/")?;
    for _ in 0..number(text) {
        table.push(b'(')?;
    }
    for _ in 0..number(text) {
        table.push(b')')?;
    }
    table.extend(b"/ y")?;
    Ok(table)
}

// What is said of a text.
fn said(alloc: Global, kind: &str, row: &str) -> Result<Bytes, NoMemory> {
    let text = row.as_bytes();
    match kind {
        "table" => judged(alloc, text),
        "find" => {
            let (key, table) = parted(text);
            found(alloc, key, table)
        }
        "octets" => {
            let (key, table) = parted(text);
            let key = octets(alloc, key)?;
            found(alloc, key.as_slice(), table)
        }
        "keys" => asked(alloc, text),
        "plain" => compared(alloc, row),
        "results" => results(alloc, text),
        "repeat" => {
            let text = repeated(alloc, text)?;
            judged(alloc, text.as_slice())
        }
        "deep" => {
            let text = nested(alloc, text)?;
            judged(alloc, text.as_slice())
        }
        _ => Bytes::from_slice(alloc, b"no such kind of row"),
    }
}

// Prints a row where something else is said of its text.
fn look_at(rt: &HostRuntime, alloc: Global, row: &str) -> io::Result<()> {
    let Some((kind, rest)) = row.split_once('¦') else {
        return println!(rt; "no row: {row}");
    };
    let Some((text, answer)) = rest.split_once('¦') else {
        return println!(rt; "no row: {row}");
    };
    let text = text.replace(alloc, '␤', "\n")?;
    let answer = answer.replace(alloc, '␤', "\n")?;
    match said(alloc, kind, text.as_str()) {
        Ok(bytes) => {
            if bytes.as_slice() != answer.as_bytes() {
                println!(rt; "not so: {row}")?;
            }
        }
        Err(NoMemory) => println!(rt; "no memory: {row}")?,
    }
    Ok(())
}

fn main(rt: HostRuntime) -> io::Result<()> {
    let alloc = rt.alloc();
    let mut rows: u64 = 0;
    for line in rt.lines(alloc) {
        let line = line?;
        if line.as_str().starts_with("# ") {
            continue;
        }
        look_at(&rt, alloc, line.as_str())?;
        rows = rows.saturating_add(1);
    }
    println!(rt; "{rows} rows")
}
