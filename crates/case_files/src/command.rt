//! The command line of a case.
use crate::refusal::{Fault, Refusal};
use pf_base::Bytes;
use std::alloc::Global;

/// What a command line begins with.
const PROMPT: &[u8] = b"$ postgate";

// A command line as it is read from the left: the words that have ended, the word that has begun, and whether a quote is open.
#[derive(Drop)]
struct Words {
    ended: Vec<String>,
    word: Bytes,
    has_word: bool,
    is_quoted: bool,
}

impl Words {
    fn end_word(&mut self, alloc: Global) -> Result<(), Fault> {
        if self.has_word {
            let Ok(word) = str::from_utf8(self.word.as_slice()) else {
                return Err(Fault::Refused(Refusal::Statement));
            };
            self.ended.push(String::from_str(alloc, word)?)?;
        }
        self.word.clear();
        self.has_word = false;
        Ok(())
    }

    fn add(&mut self, alloc: Global, byte: u8) -> Result<(), Fault> {
        if byte == b'\'' {
            self.is_quoted = !self.is_quoted;
            self.has_word = true;
            Ok(())
        } else if matches!(byte, b' ' | b'\t') && !self.is_quoted {
            self.end_word(alloc)
        } else {
            self.has_word = true;
            self.word.push(byte)?;
            Ok(())
        }
    }
}

// The words after the prompt.
fn words_in(alloc: Global, line: &[u8]) -> Result<Vec<String>, Fault> {
    let mut words = Words {
        ended: Vec::new(alloc),
        word: Bytes::new(alloc),
        has_word: false,
        is_quoted: false,
    };
    for byte in line {
        words.add(alloc, *byte)?;
    }
    if words.is_quoted {
        return Err(Fault::Refused(Refusal::Quote));
    }
    words.end_word(alloc)?;
    Ok(words.ended)
}

/// The words of a command line; None where the line is none.
pub fn command_of(alloc: Global, line: &[u8]) -> Result<Option<Vec<String>>, Fault> {
    match line.strip_prefix(PROMPT) {
        None => Ok(None),
        Some([]) => Ok(Some(Vec::new(alloc))),
        Some([b' ' | b'\t', words @ ..]) => Ok(Some(words_in(alloc, words)?)),
        Some(_) => Ok(None),
    }
}
