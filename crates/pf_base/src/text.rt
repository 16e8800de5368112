//! Texts: their lines, words, braces, names and numbers.
pub(crate) mod braces;
pub(crate) mod cuts;
pub(crate) mod keys;
pub(crate) mod lines;
pub(crate) mod logical;
pub(crate) mod names;
pub(crate) mod numbers;
pub(crate) mod printing;
pub(crate) mod space;
pub(crate) mod words;
