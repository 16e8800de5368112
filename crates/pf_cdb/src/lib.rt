//! cdb files: how one is written, whether one is damaged, and what it holds
//! (D. J. Bernstein, A structure for constant databases; cdb(5)).
#![tactic(auto)]

mod checking;
mod damage;
mod fault;
mod hashing;
mod layout;
mod listing;
mod opened;
mod placing;
mod repeats;
mod search;
mod sizing;
mod span;
mod tables;
mod writer;
mod writing;

pub use checking::check;
pub use damage::Damage;
pub use fault::WriteFault;
pub use hashing::hash;
pub use listing::elements;
pub use opened::{CdbFile, ends_in_null, without_null};
pub use search::find;
pub use span::Span;
pub use writer::{Writer, Written};
pub use writing::write;
