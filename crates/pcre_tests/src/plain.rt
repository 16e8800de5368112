//! Tables of patterns asked rule by rule: each rule is a table of its own with the conditions round it, and of their values at a
//! key the first counts. No line is continued, and none is a comment.

use crate::tables::FILE;
use pf_asks::Found;
use pf_base::{Bytes, ConfFault, NoMemory};
use pf_pcre::{Patterns, PcreTable};
use std::alloc::Global;

/// The rules of a table in order, each alone.
#[derive(Drop)]
pub(crate) struct PlainTable {
    rules: Vec<PcreTable>,
}

// The text of a rule alone, with the conditions round it.
fn text_alone(alloc: Global, around: &[&str], rule: &str) -> Result<Bytes, NoMemory> {
    let mut text = Bytes::new(alloc);
    for condition in around {
        text.extend_all(&[condition.as_bytes(), b"\n"])?;
    }
    text.extend_all(&[rule.as_bytes(), b"\n"])?;
    for _ in around {
        text.extend(b"endif\n")?;
    }
    Ok(text)
}

fn rule_alone(alloc: Global, around: &[&str], rule: &str) -> Result<PcreTable, ConfFault> {
    let text = text_alone(alloc, around, rule)?;
    PcreTable::read(alloc, FILE, text.as_slice(), &mut Patterns::new())
}

impl PlainTable {
    /// The table of a text, or the first refusal of a rule alone.
    pub(crate) fn read(alloc: Global, text: &str) -> Result<PlainTable, ConfFault> {
        let mut rules = Vec::new(alloc);
        let mut around: Vec<&str> = Vec::new(alloc);
        for line in text.split('\n') {
            if line == "endif" {
                let _ = around.pop();
            } else if line.starts_with("if ") {
                let Ok(()) = around.push(line) else {
                    return Err(ConfFault::NoMemory);
                };
            } else {
                let rule = rule_alone(alloc, around.as_slice(), line)?;
                let Ok(()) = rules.push(rule) else {
                    return Err(ConfFault::NoMemory);
                };
            }
        }
        Ok(PlainTable { rules })
    }

    /// The value of the first rule that applies to a key.
    pub(crate) fn value(&mut self, alloc: Global, key: &[u8]) -> Result<Option<Bytes>, NoMemory> {
        for rule in &mut self.rules {
            if let Found::Value(value) = rule.find(alloc, key)? {
                return Ok(Some(value));
            }
        }
        Ok(None)
    }
}
