// The line format: character classes, kinds of names, parts of a form, head words, numbers, the grammar of a line, and the reader.
#![tactic(auto)]

pub mod bytes;
mod keys;
pub mod kinds;
pub mod numbers;
pub mod parse;
pub mod parts;
pub mod read;
pub mod reader;
pub mod tables;
pub mod words;
