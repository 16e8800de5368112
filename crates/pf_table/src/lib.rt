//! Tables that are asked for keys (DATABASE_README): what each kind means, and a search through several.
#![tactic(auto)]

mod constant;
mod first;
mod inline;
mod line;
mod lines;
mod memory;
mod pairs;
mod table;
mod text;

pub use constant::{FailTable, StaticTable};
pub use first::find_first;
pub use inline::{Inline, in_brace};
pub use lines::TextLines;
pub use memory::FixedLookup;
pub use pairs::{Repeats, kept_key};
pub use table::Table;
pub use text::{Repeated, TextRead, TextTable};
