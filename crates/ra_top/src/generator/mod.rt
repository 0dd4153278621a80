//! The generated input: a function of 402 blocks over the built-in target, for a seed.

mod lines;
mod reading;
mod source;
mod text;

pub use crate::generator::reading::generate;
pub use crate::generator::text::generated_text;
