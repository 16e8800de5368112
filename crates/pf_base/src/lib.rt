//! What every layer of postgate stands on: lists that contracts see as lists, the traits to the outside with
//! their forms in memory, faults and their causes, refusals, and the lines and words of a text.
#![tactic(auto)]

mod bytes;
mod fault;
mod list;
mod meaning;
mod outside;
mod pair;
mod refused;
mod table_texts;
mod text;

pub use bytes::Bytes;
pub use fault::{Failed, NoMemory, OuterFault};
pub use list::List;
pub use meaning::Meaning;
pub use outside::memory::{MemFiles, MemSink, MemSource};
pub use outside::reading::{FILE_LIMIT, ReadFault, read_all};
pub use outside::texts::{
    SinkFault, Texts, blamed, status_after, write_log, write_out, write_some, write_texts,
};
pub use outside::{Files, Sink, Source, status};
pub use pair::Pair;
pub use refused::{Cause, ConfFault, Refused, refuse};
pub use table_texts::{Specs, TableId};
pub use text::braces::closing_brace;
pub use text::cuts::{after_byte, before_byte, cut_at};
pub use text::keys::fold;
pub use text::lines::{first_line, without_return};
pub use text::logical::{Logical, TextFault, is_ignored, logical_lines, starts_with_space};
pub use text::names::{is_host_name, same_in_any_case};
pub use text::numbers::{decimal, decimal_within};
pub use text::printing::{add_line, add_printed};
pub use text::space::{is_space, trimmed, without_leading_space};
pub use text::words::{WordsFault, words_of};
