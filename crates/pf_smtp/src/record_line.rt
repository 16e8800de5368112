//! Lines of a message's record.

/// A line of a message's record, which is postgate's own. No verb of today gives one.
#[derive(Drop)]
pub enum RecordLine {}
