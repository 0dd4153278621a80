//! The command `check`: whether each function of a file is an allocation of its partner in another.

mod files;

pub use crate::check::files::check;
