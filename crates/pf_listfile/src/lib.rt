//! List files (DATABASE_README): a file of host names, addresses and nets that a list of domains, networks or hosts names.
#![tactic(auto)]

mod file;
mod item;
mod places;
mod reading;

pub use file::ListFile;
