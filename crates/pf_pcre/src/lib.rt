//! Tables of patterns (pcre_table(5)): how they are read, and which rule applies to a key.
#![tactic(auto)]

mod entries;
mod entry;
mod expand;
mod finder;
mod line;
mod parts;
mod pattern;
mod patterns;
mod pieces;
mod reason;
mod run;
mod shape;
mod sieve;
mod spans;
mod switches;
mod table;

pub use pattern::Pattern;
pub use patterns::{BuildFault, Patterns};
pub use switches::Switches;
pub use table::PcreTable;
