//! Builds a cdb file, checks one, lists it and asks it, or judges rows of what pf_cdb says. bench/cdb.py runs it beside the tool
//! cdb of tinycdb.
//!
//! usage: cdb_tests build TEXT | check FILE | list FILE | ask FILE KEYS | rows FILE
//!
//! A line of TEXT is a key, a blank and a value. `build` prints the file for the lines, `check` what is wrong with a file or
//! nothing, `list` a line for each pair of it, and `ask` a line with the value of each line of KEYS that is a key of it. `rows`
//! lists FILE and judges the rows of the file `rows` beside it: docs/CASES.md has their format, `said.rt` their kinds, and
//! `described.rt` how a row writes a file.
#![tactic(auto)]

mod asking;
mod described;
mod kept;
mod made;
mod plain;
mod said;
mod sweep;

use asking::{ask, build, damage_line, list};
use pf_base::{Bytes, NoMemory};
use row_files::judge_file;
use said::Files;
use std::alloc::Global;
use std::{env, fs, io};

const USAGE: &[u8] =
    b"usage: cdb_tests build TEXT | check FILE | list FILE | ask FILE KEYS | rows FILE\n";

// The bytes that these words ask for.
fn answer(
    rt: &HostRuntime,
    alloc: Global,
    words: &[String],
) -> io::Result<Result<Bytes, NoMemory>> {
    if words.len() < 2 {
        return Ok(Bytes::from_slice(alloc, USAGE));
    }
    let file = fs::read(rt, words[1].as_str())?;
    let file = file.as_slice();
    match words[0].as_str() {
        "build" => Ok(build(alloc, file)),
        "check" => Ok(damage_line(alloc, file)),
        "list" | "rows" => Ok(list(alloc, file)),
        "ask" if words.len() == 3 => {
            let keys = fs::read(rt, words[2].as_str())?;
            Ok(ask(alloc, file, keys.as_slice()))
        }
        _ => Ok(Bytes::from_slice(alloc, USAGE)),
    }
}

// Judges the rows where the words ask for it; one that is not so is an error.
fn judge(rt: &HostRuntime, words: &[String]) -> io::Result<()> {
    match words {
        [command, ..] if command.as_str() == "rows" => {
            if judge_file(rt, "rows", &mut Files) {
                Ok(())
            } else {
                Err(io::Error::from(io::ErrorKind::InvalidData))
            }
        }
        _ => Ok(()),
    }
}

fn main(rt: HostRuntime) -> io::Result<()> {
    let alloc = rt.alloc();
    let words = env::args(&rt)?.skip(1).collect::<Vec<String>>(alloc)?;
    match answer(&rt, alloc, words.as_slice())? {
        Ok(text) => rt.stdout().write_all(text.as_slice())?,
        Err(NoMemory) => return Err(io::Error::from(io::ErrorKind::OutOfMemory)),
    }
    judge(&rt, words.as_slice())
}
