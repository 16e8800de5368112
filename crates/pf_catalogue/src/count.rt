//! The number of parameters.

/// How many parameters there are.
pub const PARAMS: u16 = 77;
