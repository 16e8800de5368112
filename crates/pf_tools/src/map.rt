//! postmap: a cdb that is built, the value of a key, the values of the keys of the input, and the pairs of a table.
pub(crate) mod build;
pub(crate) mod keys;
pub(crate) mod lines;
pub(crate) mod run;
pub(crate) mod table;
