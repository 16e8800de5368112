//! Words for what asks the outside: tables, policy services and a resolver. A definition that asks is a question, and a
//! contract says that a call led from its question to its answer; docs/PROOFS.md reads them aloud.
#![tactic(auto)]

mod links;
mod lookup;
mod memory;
mod memory_links;
mod resolver;

pub use links::{LinkStep, Links, Outcome, Request};
pub use lookup::{Found, Lookup, Results, TableFault};
pub use memory::MemResolver;
pub use memory_links::MemLinks;
pub use resolver::{Answer, AskFault, Kind, Resolver, Row};
