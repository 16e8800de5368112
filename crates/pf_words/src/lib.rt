//! The words of a command line: which command they name, and what its options and its further words say.
#![tactic(auto)]

mod assignments;
mod command;
mod numbers;
mod postconf;
mod postmap;
mod smtpd;
mod words;

pub use assignments::{assignment_of_word, assignments_of_words};
pub use postconf::{ConfMode, ConfWords, Shape};
pub use postmap::{MapJob, MapWords};
pub use smtpd::SmtpdWords;
pub use words::{SinkNames, Words, sink_names, words_of};
