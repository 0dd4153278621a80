//! The summary of a generated function: the function of a seed is allocated under guard, and source and
//! allocated function are run.

pub mod counts;
mod lines;
mod ran;
mod text;

pub use crate::report::summary::text::text_of_gen;
