//! A place in bytes.

/// Where a part of some bytes is: from `start` up to before `end`, counted from 0.
#[derive(Clone, Copy, Debug, PartialEq, Eq)]
pub struct Span {
    pub start: u64,
    pub end: u64,
}
