//! The SMTP session (RFC 5321): lines in, replies and decisions out, in whatever pieces the input comes.
#![tactic(auto)]

mod command;
mod entry;
mod printing;
mod progress;
mod record_line;
mod reply;
mod session;
mod state;
mod step;

pub use entry::Entry;
pub use progress::{LineBuffer, Progress};
pub use record_line::RecordLine;
pub use reply::{HeloReply, LineReply, MailReply, QuitReply, RcptReply, Reply};
pub use session::{Going, Session};
pub use state::{Setup, State};
