//! What is read of one parameter.
use crate::add_number;
use crate::params::add_fault;
use pf_base::{Bytes, ConfFault, List, NoMemory};
use pf_catalogue::{Param, param};
use pf_maincf::MainCf;
use pf_params::Known;
use std::alloc::Global;

// Adds a line, the text before names are expanded, and the value, parted by bars, or the line of the refusal.
fn add_reading(
    alloc: Global,
    said: &mut Bytes,
    known: &Known,
    name: &[u8],
    p: Param,
) -> Result<(), NoMemory> {
    match known.reading(alloc, p)? {
        Ok(reading) => {
            add_number(alloc, said, reading.line)?;
            said.extend_all(&[b"|", reading.raw.as_slice(), b"|", reading.text.as_slice()])
        }
        Err(cause) => {
            let refused = known.refusal(alloc, name, cause)?;
            add_fault(alloc, said, ConfFault::Refused(refused))
        }
    }
}

// Adds the first refusal of the classes.
fn add_refusal(alloc: Global, said: &mut Bytes, known: &Known) -> Result<(), NoMemory> {
    match known.class_refusal(alloc, None)? {
        None => said.extend(b"none"),
        Some(refused) => add_fault(alloc, said, ConfFault::Refused(refused)),
    }
}

/// Adds what a main.cf has for a parameter whatever there is of others, or the line of its refusal; of no parameter the first
/// refusal of the classes.
pub fn add_known(
    alloc: Global,
    said: &mut Bytes,
    text: &[u8],
    name: &[u8],
) -> Result<(), NoMemory> {
    match MainCf::read(alloc, b"main.cf", text) {
        Err(fault) => add_fault(alloc, said, fault),
        Ok(main) => {
            let known = Known::new(alloc, &main, &List::new(alloc))?;
            match param(name) {
                Some(p) => add_reading(alloc, said, &known, name, p),
                None => add_refusal(alloc, said, &known),
            }
        }
    }
}
