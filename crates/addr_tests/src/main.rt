//! Reads rows of spelled paths and of what each means, and prints what `path` and `print` say where they say otherwise, and
//! how many rows there were.
//!
//! A row is `SPELLING¦LOCAL¦DOMAIN¦END¦PRINTED`, or `SPELLING¦null¦END`, or `SPELLING¦none` where no path is spelled. A
//! tab, a byte of 0 and one of 127 are `␉`, `␀` and `␡`. Rows that begin with `# ` are comments.
#![tactic(auto)]

use pf_addr::{Address, Path, PathFault, PathRead, path, print};
use pf_base::{Bytes, NoMemory, decimal};
use std::alloc::{AllocError, Global};
use std::{env, io};

const BAR: &str = "¦";

// A row with its control bytes.
fn decoded(alloc: Global, row: &str) -> Result<String, AllocError> {
    let row = row.replace(alloc, '␉', "\t")?;
    let row = row.as_str().replace(alloc, '␀', "\0")?;
    row.as_str().replace(alloc, '␡', "\x7f")
}

// Adds a bar and a field.
fn add_field(field: &[u8], row: &mut Bytes) -> Result<(), NoMemory> {
    row.extend(BAR.as_bytes())?;
    row.extend(field)
}

fn add_end(alloc: Global, end: u64, row: &mut Bytes) -> Result<(), NoMemory> {
    let end = decimal(alloc, end)?;
    add_field(end.as_bytes(), row)
}

fn add_address(
    alloc: Global,
    address: &Address,
    end: u64,
    row: &mut Bytes,
) -> Result<(), NoMemory> {
    add_field(address.local.as_slice(), row)?;
    add_field(address.domain.as_slice(), row)?;
    add_end(alloc, end, row)?;
    let printed = print(alloc, address)?;
    add_field(printed.as_slice(), row)
}

fn add_path(alloc: Global, read: &PathRead, row: &mut Bytes) -> Result<(), NoMemory> {
    match &read.path {
        Path::To(address) => add_address(alloc, address, read.end, row),
        Path::Null => {
            add_field(b"null", row)?;
            add_end(alloc, read.end, row)
        }
    }
}

// The row of a spelling.
fn row_of(alloc: Global, spelling: &str) -> Result<Bytes, NoMemory> {
    let mut row = Bytes::from_slice(alloc, spelling.as_bytes())?;
    match path(alloc, spelling.as_bytes()) {
        Err(PathFault::NoMemory) => return Err(NoMemory),
        Err(PathFault::Malformed) => add_field(b"none", &mut row)?,
        Ok(read) => add_path(alloc, &read, &mut row)?,
    }
    Ok(row)
}

// Reads the path of a spelling and prints its address, as often as it is told; the sum of the ends and lengths.
fn turn(alloc: Global, spelling: &[u8], turns: u64) -> Result<u64, NoMemory> {
    let mut sum: u64 = 0;
    for _ in 0..turns {
        match path(alloc, spelling) {
            Err(PathFault::NoMemory) => return Err(NoMemory),
            Err(PathFault::Malformed) => {}
            Ok(read) => {
                sum = sum.saturating_add(read.end);
                if let Path::To(address) = read.path {
                    sum = sum.saturating_add(print(alloc, &address)?.len());
                }
            }
        }
    }
    Ok(sum)
}

// How often each spelling is read besides: bench/paths.py asks for many turns by the variable TURNS.
fn asked_turns(rt: &HostRuntime) -> u64 {
    match env::var(rt, "TURNS") {
        Ok(text) => text.as_str().parse::<u64>().unwrap_or(1),
        Err(_) => 1,
    }
}

// Prints what is said of a row's spelling, where that is not the row.
fn look_at(rt: &HostRuntime, alloc: Global, row: &str, turns: u64) -> io::Result<()> {
    let spelling = match row.split_once('¦') {
        Some((spelling, _)) => spelling,
        None => row,
    };
    if turn(alloc, spelling.as_bytes(), turns).is_err() {
        println!(rt; "no memory: {row}")?;
    }
    match row_of(alloc, spelling) {
        Ok(said) => {
            if said.as_slice() != row.as_bytes() {
                println!(rt; "not so: {row}")?;
            }
        }
        Err(NoMemory) => println!(rt; "no memory: {row}")?,
    }
    Ok(())
}

fn main(rt: HostRuntime) -> io::Result<()> {
    let alloc = rt.alloc();
    let turns = asked_turns(&rt);
    let mut rows: u64 = 0;
    for line in rt.lines(alloc) {
        let line = line?;
        if line.as_str().starts_with("# ") {
            continue;
        }
        let row = decoded(alloc, line.as_str())?;
        look_at(&rt, alloc, row.as_str(), turns)?;
        rows = rows.saturating_add(1);
    }
    println!(rt; "{rows} rows")
}
