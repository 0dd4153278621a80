//! Splitting: a live range becomes several, with copies between them where its labels change (LLVM's
//! SplitKit).
//!
//! What it makes is the split of the definition, and the table of live lanes is computed for it; that
//! such a split keeps the meaning is proved in split_laws. Begin with `children`; `block_walk` and
//! `part_edits` make the edits.
#![tactic(auto)]

mod block_walk;
mod children;
mod edit_law;
mod part_edits;

pub use children::split;
pub use edit_law::{further_rules_law, shown_parts_law, split_edits_law};
