//! The standard and the resolved form of an address, and its class (ADDRESS_REWRITING_README; ADDRESS_CLASS_README).
#![tactic(auto)]

mod class;
mod domains;
mod fault;
mod gathering;
mod item;
mod items;
mod literal;
mod members;
mod names;
mod parts;
mod resolved;
mod rules;
mod site;
mod standard;
mod subject;

pub use class::Class;
pub use domains::Domains;
pub use fault::ClassFault;
pub use item::{Item, Pattern};
pub use members::tables_of;
pub use names::Names;
pub use resolved::Resolved;
pub use rules::Rules;
