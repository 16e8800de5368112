//! A text in its parts, as a list.
use pf_base::Bytes;

/// A piece of a text: bytes that stand for themselves, the value of a name, or where a choice by a name's value begins,
/// where its second text begins, and where it ends. The first text counts where the value is not empty.
#[derive(Debug, PartialEq, Eq, Drop)]
pub(crate) enum Token {
    Literal(Bytes),
    Name(Bytes),
    Choose(Bytes),
    Otherwise,
    End,
}
