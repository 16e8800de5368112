//! postconf and postmap: what they say of a main.cf and of a table, and what they write (postconf(1), postmap(1)).
#![tactic(auto)]

mod asked;
mod file;
mod lines;
mod map;
mod order;
mod report;
mod said;
mod say;
mod top;
mod values;

pub use map::run::postmap;
pub use top::postconf;
