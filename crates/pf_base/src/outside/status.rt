//! The exit statuses of a run, which are postgate's own.

/// The job was done.
pub const DONE: u8 = 0;

/// It was done, and a name is not known.
pub const WARNED: u8 = 1;

/// The words are of another form.
pub const USAGE: u8 = 2;

/// main.cf is refused.
pub const REFUSED: u8 = 3;

/// A read of the input failed.
pub const INPUT_FAILED: u8 = 4;

/// A write to the output failed.
pub const OUT_FAILED: u8 = 5;

/// A write to the record of messages failed.
pub const MAIL_FAILED: u8 = 6;

/// A write to the log failed.
pub const LOG_FAILED: u8 = 7;

/// A call on the files failed.
pub const FILES_FAILED: u8 = 8;

/// Out of memory.
pub const NO_MEMORY: u8 = 9;

/// As many bytes of input were taken as the budget lets.
pub const AT_BUDGET: u8 = 10;
