//! The real objects that the top call works on: the streams of a process, a file that is appended to, and files under their
//! names.
#![tactic(auto)]

mod plain;
mod real;
mod replacement;
mod streams;

pub use real::{FileSink, Reading, RealFiles, Writing};
pub use streams::take_up;
