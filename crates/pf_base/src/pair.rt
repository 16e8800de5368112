//! A key with its value.
use crate::bytes::Bytes;

/// A key with its value: the name of a file with its bytes, for one.
#[derive(Debug, PartialEq, Eq, Drop)]
pub struct Pair {
    pub key: Bytes,
    pub value: Bytes,
}
