//! The text of functions: reading a document and printing one.
//!
//! What is read is just the document that the bytes spell, a refusal has the first fault with its line,
//! and what is printed is the printed spelling. Begin with `doc` (a document in one piece), `document`
//! (one that comes in pieces) and `print`; `text_laws` says what holds of each function that is read.
#![tactic(auto)]

pub mod doc;
pub mod document;
pub mod print;
mod reading;
pub mod text_laws;

pub use doc::{Doc, TextFault, TextKind, TextStop};
pub use document::{DocReader, FIRST, LATER, read_doc};
pub use print::print_doc;
