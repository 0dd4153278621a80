//! Lines of a body, before their names are looked up: tokens, operands, instructions, headers and
//! lists.
//!
//! What is answered is just what the line spells, and a refusal comes exactly where it spells nothing.
//! Begin with `lexer`, then `instructions` and `blocks`.
#![tactic(auto)]

pub mod blocks;
pub mod instructions;
pub mod lexer;
pub mod numbers;
pub mod operands;
mod parts;
pub mod raw;
pub mod registers;
mod stop;
mod symbols;

pub use raw::{RawEdge, RawHeader, RawInstr, RawOperand, RawOperands, RawPlace, RawReg, Words};
pub use stop::LineStop;
