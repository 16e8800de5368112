//! Why a text has no value.

/// Why a text has no value, in the order in which it is looked for.
#[derive(Clone, Copy, Debug, PartialEq, Eq)]
pub enum Flaw {
    /// A dollar sign begins no form.
    BadForm,
    /// Names are nested more than 100 deep.
    TooDeep,
    /// A value is longer than 1,048,576 bytes.
    TooLong,
}
