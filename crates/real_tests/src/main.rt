//! Takes steps with the real objects and says what they come to, of the rows of the file `rows`: `ok`, `failed`, or what is
//! seen. The prefix of a row is a step and a name:
//!
//! - `begin` begins a case, with files of which nothing was asked yet and sinks that were not written
//! - `size`, `read` (four bytes from the place that the text is: how many came, and all four) and `replace`, of the files, and
//!   `new-replace`, of files of which nothing was asked
//! - `sink`, a write to `record`, to `lost` (below the file `record`), or to `first` or `second`, which share the file `log`
//! - `stderr`, a write, and `take-up`, which says whether an open stream takes up a descriptor
//!
//! The steps of the system, beside them, are `write`, `put-0s`, `put-1s` and `put-1ns` (written in place, last changed so long
//! after 1970), `rename` (to the text), `remove`, `folder`, `remove-folder`, `link` (to the text), `permit` (the permissions 622),
//! `lock` and `unlock`; `text`, `there`, `target` and `permissions` look.
#![tactic(auto)]

mod objects;
mod system;

use objects::{Objects, take_step};
use pf_base::{Bytes, NoMemory};
use row_files::{Says, judge_rows};
use std::alloc::Global;
use std::process::ExitCode;

#[derive(Drop)]
struct Steps<'a> {
    rt: &'a HostRuntime,
    objects: Objects<'a>,
}

impl Says for Steps<'_> {
    fn say(
        &mut self,
        _: Global,
        said: &mut Bytes,
        prefix: &str,
        text: &str,
    ) -> Result<(), NoMemory> {
        let (step, name) = prefix.split_once(' ').unwrap_or((prefix, ""));
        if step == "begin" {
            self.objects = Objects::new(self.rt);
            return said.extend(b"ok");
        }
        match take_step(&mut self.objects, step, name, text) {
            Ok(seen) => said.extend(seen.as_str().as_bytes()),
            Err(_) => said.extend(b"failed"),
        }
    }
}

fn main(rt: HostRuntime) -> ExitCode {
    let objects = Objects::new(&rt);
    judge_rows(&rt, &mut Steps { rt: &rt, objects })
}
