//! Judging: what the lists of restrictions say of a client and a recipient (SMTPD_ACCESS_README).
#![tactic(auto)]

mod judge;
mod policy;

pub use judge::judge_plain;
pub use policy::{PlainEnd, PlainItem, PlainPolicy};
