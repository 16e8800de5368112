//! The values of texts in which names stand for other texts (postconf(5), main.cf format).
#![tactic(auto)]

mod flaw;
mod form;
mod lengths;
mod names;
mod parse;
mod rounds;
mod run;
mod size;
mod token;
mod values;
mod write;

pub use flaw::Flaw;
pub use names::Names;
pub use values::Values;
