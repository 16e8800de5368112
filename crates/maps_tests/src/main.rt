//! Reads rows of table texts and of what each names, holds or answers, and prints what pf_maps says where it says otherwise, and
//! how many rows there were.
//!
//! A row is `FRONT¦TEXT¦SAID`. Where FRONT is `spec`, SAID has what the text names, each node as its type and its name, the
//! members of a union or a pipe after it, all parted by bars, or the line of the refusal. `file NAME` gives a file of this name
//! the bytes TEXT, for the rows after it; `cdb NAME` gives it those that pf_cdb writes for pairs `KEY=VALUE` that commas part;
//! `cut NAME N` the first N bytes of the file TEXT, and `put NAME AT BYTE` those of the file TEXT with this byte at this place. `find KEY` opens the table of TEXT and asks it for the key; SAID is the value, `none`,
//! `fails`, or the line of the refusal. With `-f` after `find` keys are not folded. `results` asks for the values that the table
//! may give; SAID is `partial` where it has partial keys, and each value, or `anything`. `open` opens the tables of several texts,
//! parted by `;`, and SAID is their number. In `failing N` call N on the files fails; SAID is then `failed FILE`. A line feed
//! is as `␊`, a null byte as `␀`. Rows that begin with `# ` are comments.
#![tactic(auto)]

use pf_asks::{Found, Lookup, Results, TableFault};
use pf_base::{Bytes, ConfFault, List, MemFiles, NoMemory, Pair, Refused, Specs, TableId, decimal};
use pf_cdb::write;
use pf_maps::{OpenFault, SpecNode, Tables, spec};
use pf_pcre::Patterns;
use std::alloc::{AllocError, Global};
use std::io;

const BAR: &str = "¦";

// The line of the setting that a row's text would be in.
const LINE: u64 = 7;

// A row with its line feeds and null bytes.
fn decoded(alloc: Global, row: &str) -> Result<String, AllocError> {
    let row = row.replace(alloc, '␊', "\n")?;
    row.as_str().replace(alloc, '␀', "\0")
}

// Adds a bar and a field.
fn add_field(said: &mut Bytes, parts: &[&[u8]]) -> Result<(), NoMemory> {
    said.extend(BAR.as_bytes())?;
    said.extend_all(parts)
}

fn add_number(alloc: Global, said: &mut Bytes, name: &[u8], number: u64) -> Result<(), NoMemory> {
    let number = decimal(alloc, number)?;
    add_field(said, &[name, number.as_bytes()])
}

fn add_refusal(alloc: Global, said: &mut Bytes, refused: &Refused) -> Result<(), NoMemory> {
    let line = refused.line(alloc)?;
    match line.as_slice() {
        [prefix @ .., b'\n'] => add_field(said, &[prefix]),
        _ => add_field(said, &[]),
    }
}

fn add_node(alloc: Global, said: &mut Bytes, node: &SpecNode) -> Result<(), NoMemory> {
    match node {
        SpecNode::Text(name) => add_field(said, &[b"texthash ", name.as_slice()]),
        SpecNode::Cdb(name) => add_field(said, &[b"cdb ", name.as_slice()]),
        SpecNode::Cidr(name) => add_field(said, &[b"cidr ", name.as_slice()]),
        SpecNode::Pcre(name) => add_field(said, &[b"pcre ", name.as_slice()]),
        SpecNode::Inline(text) => add_field(said, &[b"inline ", text.as_slice()]),
        SpecNode::Fixed(value) => add_field(said, &[b"static ", value.as_slice()]),
        SpecNode::Fail => add_field(said, &[b"fail"]),
        SpecNode::ListFile(name) => add_field(said, &[b"list ", name.as_slice()]),
        SpecNode::Union(count) => add_number(alloc, said, b"unionmap ", *count),
        SpecNode::Pipe(count) => add_number(alloc, said, b"pipemap ", *count),
    }
}

fn say_spec(alloc: Global, said: &mut Bytes, text: &str) -> Result<(), NoMemory> {
    match spec(alloc, b"main.cf", LINE, text.as_bytes()) {
        Err(ConfFault::NoMemory) => Err(NoMemory),
        Err(ConfFault::Refused(refused)) => add_refusal(alloc, said, &refused),
        Ok(nodes) => {
            for node in nodes.as_slice() {
                add_node(alloc, said, node)?;
            }
            Ok(())
        }
    }
}

fn copied(alloc: Global, files: &List<Pair>) -> Result<List<Pair>, NoMemory> {
    let mut copies = List::new(alloc);
    for file in files.as_slice() {
        copies.push(Pair {
            key: file.key.copy(alloc)?,
            value: file.value.copy(alloc)?,
        })?;
    }
    Ok(copies)
}

// The texts of a row.
fn specs_of(alloc: Global, texts: &str) -> Result<Specs, NoMemory> {
    let mut specs = Specs::new(alloc, Bytes::from_slice(alloc, b"main.cf")?);
    for text in texts.split(';') {
        specs.add(alloc, LINE, text.as_bytes())?;
    }
    Ok(specs)
}

// The tables of these texts, over the files, of which one call may fail.
fn opened(
    alloc: Global,
    files: &List<Pair>,
    failing: u64,
    folded: bool,
    specs: &Specs,
) -> Result<Tables, OpenFault> {
    let Ok(files) = copied(alloc, files) else {
        return Err(OpenFault::NoMemory);
    };
    let mut numbers = List::new(alloc);
    let Ok(()) = numbers.push(failing) else {
        return Err(OpenFault::NoMemory);
    };
    let mut files = MemFiles::new(alloc, files, numbers);
    Tables::open(alloc, specs, folded, &mut files, &mut Patterns::new())
}

fn add_fault(alloc: Global, said: &mut Bytes, fault: &OpenFault) -> Result<(), NoMemory> {
    match fault {
        OpenFault::Refused(refused) => add_refusal(alloc, said, refused),
        OpenFault::Failed { file } => add_field(said, &[b"failed ", file.as_slice()]),
        OpenFault::NoMemory => Err(NoMemory),
    }
}

fn add_answer(said: &mut Bytes, answer: Result<Found, TableFault>) -> Result<(), NoMemory> {
    match answer {
        Ok(Found::Value(value)) => add_field(said, &[value.as_slice()]),
        Ok(Found::Absent) => add_field(said, &[b"none"]),
        Err(TableFault::Fails) => add_field(said, &[b"fails"]),
        Err(TableFault::Failed) => add_field(said, &[b"failed"]),
        Err(TableFault::NoMemory) => Err(NoMemory),
    }
}

fn add_results(said: &mut Bytes, results: Result<Results, TableFault>) -> Result<(), NoMemory> {
    match results {
        Err(TableFault::NoMemory) => Err(NoMemory),
        Err(_) => add_field(said, &[b"failed"]),
        Ok(Results::Anything) => add_field(said, &[b"anything"]),
        Ok(Results::Listed(values)) => {
            for value in values.as_slice() {
                add_field(said, &[value.as_slice()])?;
            }
            Ok(())
        }
    }
}

// The first table of a row.
const FIRST: TableId = TableId(0);

fn say_find(
    alloc: Global,
    said: &mut Bytes,
    files: &List<Pair>,
    folded: bool,
    key: &str,
    text: &str,
) -> Result<(), NoMemory> {
    let specs = specs_of(alloc, text)?;
    match opened(alloc, files, 0, folded, &specs) {
        Err(fault) => add_fault(alloc, said, &fault),
        Ok(mut tables) => {
            if tables.len() == 0 {
                return add_field(said, &[b"no table"]);
            }
            add_answer(said, tables.find(alloc, FIRST, key.as_bytes()))
        }
    }
}

fn say_results(
    alloc: Global,
    said: &mut Bytes,
    files: &List<Pair>,
    text: &str,
) -> Result<(), NoMemory> {
    let specs = specs_of(alloc, text)?;
    match opened(alloc, files, 0, true, &specs) {
        Err(fault) => add_fault(alloc, said, &fault),
        Ok(mut tables) => {
            if tables.len() == 0 {
                return add_field(said, &[b"no table"]);
            }
            if tables.partial_keys(FIRST) {
                add_field(said, &[b"partial"])?;
            }
            add_results(said, tables.results(alloc, FIRST))
        }
    }
}

fn say_open(
    alloc: Global,
    said: &mut Bytes,
    files: &List<Pair>,
    failing: u64,
    texts: &str,
) -> Result<(), NoMemory> {
    let specs = specs_of(alloc, texts)?;
    match opened(alloc, files, failing, true, &specs) {
        Err(fault) => add_fault(alloc, said, &fault),
        Ok(tables) => add_number(alloc, said, b"", tables.len()),
    }
}

fn say_of(
    alloc: Global,
    said: &mut Bytes,
    files: &List<Pair>,
    prefix: &str,
    text: &str,
) -> Result<(), NoMemory> {
    if let Some(key) = prefix.strip_prefix("find -f ") {
        return say_find(alloc, said, files, false, key, text);
    }
    if let Some(key) = prefix.strip_prefix("find ") {
        return say_find(alloc, said, files, true, key, text);
    }
    if let Some(number) = prefix.strip_prefix("failing ") {
        let number = number.parse::<u64>().unwrap_or(0);
        return say_open(alloc, said, files, number, text);
    }
    match prefix {
        "spec" => say_spec(alloc, said, text),
        "results" => say_results(alloc, said, files, text),
        "open" => say_open(alloc, said, files, 0, text),
        _ => add_field(said, &[b"no such row"]),
    }
}

// The row, as it should be.
fn row_of(alloc: Global, files: &List<Pair>, prefix: &str, text: &str) -> Result<Bytes, NoMemory> {
    let mut said = Bytes::from_slice(alloc, prefix.as_bytes())?;
    add_field(&mut said, &[text.as_bytes()])?;
    say_of(alloc, &mut said, files, prefix, text)?;
    Ok(said)
}

// Prints a row that is not as it should be.
fn look_at(
    rt: &HostRuntime,
    alloc: Global,
    files: &List<Pair>,
    prefix: &str,
    behind: &str,
    row: &str,
) -> io::Result<()> {
    let (text, _) = behind.split_once('¦').unwrap_or((behind, ""));
    match row_of(alloc, files, prefix, text) {
        Ok(said) => {
            if said.as_slice() != row.as_bytes() {
                println!(rt; "not so: {row}")?;
            }
        }
        Err(NoMemory) => println!(rt; "no memory: {row}")?,
    }
    Ok(())
}

fn add_file(
    alloc: Global,
    files: &mut List<Pair>,
    name: &str,
    text: &[u8],
) -> Result<(), NoMemory> {
    files.push(Pair {
        key: Bytes::from_slice(alloc, name.as_bytes())?,
        value: Bytes::from_slice(alloc, text)?,
    })
}

// The bytes of a file; none where it is not there.
fn file_of(alloc: Global, files: &List<Pair>, name: &str) -> Result<Bytes, NoMemory> {
    for file in files.as_slice() {
        if file.key.as_slice() == name.as_bytes() {
            return file.value.copy(alloc);
        }
    }
    Ok(Bytes::new(alloc))
}

// Adds the cdb file of pairs.
fn add_cdb(alloc: Global, files: &mut List<Pair>, name: &str, text: &str) -> Result<(), NoMemory> {
    let mut pairs = List::new(alloc);
    for pair in text.split(',') {
        if let Some((key, value)) = pair.split_once('=') {
            add_file(alloc, &mut pairs, key, value.as_bytes())?;
        }
    }
    match write(alloc, &pairs) {
        Ok(bytes) => add_file(alloc, files, name, bytes.as_slice()),
        Err(_) => Err(NoMemory),
    }
}

// Adds the first bytes of a file.
fn add_cut(alloc: Global, files: &mut List<Pair>, front: &str, from: &str) -> Result<(), NoMemory> {
    let (name, count) = front.split_once(' ').unwrap_or((front, ""));
    let count = count.parse::<usize>().unwrap_or(0);
    let bytes = file_of(alloc, files, from)?;
    match bytes.as_slice().get(..count) {
        None => Ok(()),
        Some(prefix) => add_file(alloc, files, name, prefix),
    }
}

// Adds a file with another byte.
fn add_put(alloc: Global, files: &mut List<Pair>, front: &str, from: &str) -> Result<(), NoMemory> {
    let (name, behind) = front.split_once(' ').unwrap_or((front, ""));
    let (at, byte) = behind.split_once(' ').unwrap_or((behind, ""));
    let at = at.parse::<u64>().unwrap_or(0);
    let byte = byte.parse::<u8>().unwrap_or(0);
    let bytes = file_of(alloc, files, from)?;
    let mut changed = Bytes::new(alloc);
    let mut place: u64 = 0;
    for b in bytes.as_slice() {
        changed.push(if place == at { byte } else { *b })?;
        place = place.saturating_add(1);
    }
    add_file(alloc, files, name, changed.as_slice())
}

// Adds the file of a row; false where it has none.
fn add_row_file(
    alloc: Global,
    files: &mut List<Pair>,
    prefix: &str,
    text: &str,
) -> Result<bool, NoMemory> {
    if let Some(name) = prefix.strip_prefix("file ") {
        add_file(alloc, files, name, text.as_bytes())?;
        return Ok(true);
    }
    if let Some(name) = prefix.strip_prefix("cdb ") {
        add_cdb(alloc, files, name, text)?;
        return Ok(true);
    }
    if let Some(front) = prefix.strip_prefix("cut ") {
        add_cut(alloc, files, front, text)?;
        return Ok(true);
    }
    if let Some(front) = prefix.strip_prefix("put ") {
        add_put(alloc, files, front, text)?;
        return Ok(true);
    }
    Ok(false)
}

fn main(rt: HostRuntime) -> io::Result<()> {
    let alloc = rt.alloc();
    let mut rows: u64 = 0;
    let mut files = List::new(alloc);
    for line in rt.lines(alloc) {
        let line = line?;
        if line.as_str().starts_with("# ") {
            continue;
        }
        let row = decoded(alloc, line.as_str())?;
        let row = row.as_str();
        let (prefix, behind) = row.split_once('¦').unwrap_or((row, ""));
        match add_row_file(alloc, &mut files, prefix, behind) {
            Ok(true) => {}
            Ok(false) => {
                look_at(&rt, alloc, &files, prefix, behind, row)?;
                rows = rows.saturating_add(1);
            }
            Err(NoMemory) => println!(rt; "no memory: {row}")?,
        }
    }
    println!(rt; "{rows} rows")
}
