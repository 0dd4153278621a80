//! Edits of a function with what is live in it, after which the pieces kept are those of the function
//! as it then stands.
//!
//! Cells of the lanes that edited instructions name are changed to what these do now (`renote`, by the
//! notes of `cells`, through changes of single cells in `cell_change` and `readings`). Then pieces whose causes
//! are gone fall (`fall`), those that still have a reason come alive again (`ask`, `rise`), and the
//! pieces concerned get their ends anew (`ends`): begin with `update`. Each change of a row is logged
//! (`log`), so that it can be taken back without memory. The function itself and the order of its
//! instructions are edited as a `draft`. `edits` does a whole list of them (`edit_run`), or none, and
//! `fold` joins ranges so. `live` does this to a function with its table, where edits are kept or taken
//! back; `changed` tells the pieces that they changed.
#![tactic(auto)]

mod act_changes;
mod aside;
mod ask;
mod cell_change;
mod cells;
mod change;
mod changed;
mod draft;
pub mod edit;
mod edit_run;
mod edits;
mod ends;
mod fall;
mod fold;
pub mod live;
mod log;
mod needs;
mod notes;
mod pieces;
mod readings;
mod renote;
mod rise;
mod spots;
mod update;

pub use edit::Edit;
pub use edit_run::EditRun;
pub use fold::{Join, compose_indexes, copy_sides};
pub use live::EditChanges;
