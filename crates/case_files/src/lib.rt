//! Case files: a reader of runs of postgate that are written down with what must come of them. docs/CASES.md is the reference of
//! their format.
#![tactic(auto)]

mod case_file;
mod command;
mod escapes;
mod lines;
mod part;
mod plan;
mod reading;
mod refusal;
mod rows;
mod statement;

pub use case_file::{Case, CaseFile};
pub use plan::{Call, Layer, Named, Plan, Text, text_of};
pub use reading::{plan_of, refusal_of};
pub use refusal::{Fault, Refusal};
pub use rows::Row;
pub use statement::{Object, Statement};
