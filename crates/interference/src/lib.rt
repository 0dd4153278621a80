//! Which register each live range has, and what it would clash with elsewhere (LLVM's LiveRegMatrix).
//!
//! Assigning and unassigning list exactly what assigned ranges hold, and clashes of listed ranges are
//! told exactly. Behind edits the lists are exact too, where no two ranges then clash; where an edit is
//! refused they stand as they did. Begin with `matrix`; the lists are in `held`, by units in `unit_table`,
//! and edits in `matrix_edit`, with what they put back in `saved_lists`.
#![tactic(auto)]

mod held;
mod marks;
pub mod matrix;
mod matrix_edit;
mod saved_lists;
pub mod tiny;
mod unit_table;

pub use matrix::{Clash, Matrix};
pub use tiny::{Tinies, Tiny};
