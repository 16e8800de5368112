//! Tables and list files by the texts that name them (DATABASE_README): what a text names, and tables that were opened.
#![tactic(auto)]

mod cdb_table;
mod listing;
mod net_table;
mod node;
mod opening;
mod specification;
mod tables;
mod walk;

pub use opening::{OpenFault, file_text};
pub use specification::{SpecNode, is_list_file, spec};
pub use tables::Tables;
