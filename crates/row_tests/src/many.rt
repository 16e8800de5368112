//! A main.cf of many settings.
use crate::add_number;
use crate::params::{Question, asked};
use pf_base::{Bytes, NoMemory};
use std::alloc::Global;

const TEN: &[u8] =
    b"x0 = v0\nx1 = v1\nx2 = v2\nx3 = v3\nx4 = v4\nx5 = v5\nx6 = v6\nx7 = v7\nx8 = v8\nx9 = v9\n";

/// Adds the lengths of the values of so many settings, each with ten names, summed.
pub fn add_many(alloc: Global, said: &mut Bytes, count: u64) -> Result<(), NoMemory> {
    let mut conf = Bytes::from_slice(alloc, TEN)?;
    for n in 0..count {
        conf.push(b's')?;
        add_number(alloc, &mut conf, n)?;
        conf.extend(b" = $x0 $x1 $x2 $x3 $x4 $x5 $x6 $x7 $x8 $x9\n")?;
    }
    asked(alloc, said, conf.as_slice(), 0, Question::Many(count))
}
