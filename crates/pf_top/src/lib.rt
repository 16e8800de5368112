//! The top call: the words, and then the job of the command that they name.
#![tactic(auto)]

mod opening;
mod profile;
mod refusal;
mod session_loop;
mod smtpd;
mod top;
mod values;

pub use opening::Opening;
pub use pf_words::{SinkNames, sink_names};
pub use top::run;
