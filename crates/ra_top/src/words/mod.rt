//! The words that the program is given, and the commands that they spell.

pub mod words;

pub use crate::words::words::{Command, read_words};
