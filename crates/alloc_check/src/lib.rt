//! The checker of allocations: whether an allocated function agrees with its source, whoever made it.
//! What it says Yes to is right, and No comes with the first doubt.
//!
//! It asks for facts: that a lane of the allocated function holds at a place what a lane of the source
//! holds at the place beside it. What instructions read must be known where they read it, and what a
//! place needs to be known is taken backward through its block, and from a block's start to the ends of
//! the blocks before it. The sets of facts that blocks need at their starts are a lattice: they only grow,
//! from none to the least that each instruction and each way between blocks asks for. A fact that can't
//! hold (a result that the source alone has) is the first doubt. Begin with `check`; rows are in `rows`,
//! needs in `needs`, the least sets in `family`, their test in `closed` and `settle`, and doubts in
//! `doubts`.
#![tactic(auto)]

mod alike;
mod cells;
pub mod check;
mod closed;
mod doubts;
mod facts;
mod family;
mod fitting;
mod looks;
mod needs;
mod pair;
mod rests;
mod rows;
mod settle;
mod start;
mod written;

pub use check::{Verdict, agree};
pub use fitting::fits;
pub use looks::check_reserved;
pub use pair::check_pair;
