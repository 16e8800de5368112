//! Judges rows of what libraries say of texts: `data/` has a file of rows a library, under its name without `pf_`. The head of
//! each module has what its rows ask; docs/CASES.md has their format, and how a further library's rows join.
#![tactic(auto)]

mod asks;
mod base;
mod cidr;
mod known;
mod many;
mod params;
mod table;
mod words;

use pf_base::{Bytes, NoMemory, decimal};
use row_files::{Says, judge_file};
use std::alloc::Global;
use std::process::ExitCode;

/// The libraries, by the names of their files.
static LIBRARIES: [&str; 6] = ["asks", "base", "cidr", "params", "table", "words"];

/// Adds a number in digits.
fn add_number(alloc: Global, said: &mut Bytes, number: u64) -> Result<(), NoMemory> {
    let digits = decimal(alloc, number)?;
    said.extend(digits.as_bytes())
}

// The library that says something of the rows of a file.
#[derive(Drop)]
struct Library {
    name: &'static str,
}

impl Says for Library {
    fn say(
        &mut self,
        alloc: Global,
        said: &mut Bytes,
        prefix: &str,
        text: &str,
    ) -> Result<(), NoMemory> {
        match self.name {
            "asks" => asks::add_said(alloc, said, prefix, text.as_bytes()),
            "base" => base::add_said(alloc, said, prefix, text.as_bytes()),
            "cidr" => cidr::add_said(alloc, said, prefix, text.as_bytes()),
            "params" => params::add_said(alloc, said, prefix, text.as_bytes()),
            "table" => table::add_said(alloc, said, prefix, text),
            "words" => words::add_said(alloc, said, prefix, text),
            _ => said.extend(b"no such library"),
        }
    }
}

fn main(rt: HostRuntime) -> ExitCode {
    let mut all_so = true;
    for name in &LIBRARIES {
        all_so = judge_file(&rt, *name, &mut Library { name: *name }) && all_so;
    }
    if all_so {
        ExitCode::SUCCESS
    } else {
        ExitCode::FAILURE
    }
}
