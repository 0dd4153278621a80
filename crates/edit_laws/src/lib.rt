//! Laws of edits of functions: which lanes may be live elsewhere after one, and what of a table of live
//! lanes stays right.
//!
//! Each is the contract of a function, so that a check proves it. Begin with `deferred_laws`, where
//! `edited_table_law` leads from a computed table over edits to that of the edited function; the steps
//! on its way are in `rebuilt_laws` (cells made anew), `update_laws` (pieces that fall and come alive)
//! and `order_laws`.
#![tactic(auto)]

pub mod chain_laws;
pub mod deferred_laws;
pub mod order_laws;
pub mod point_laws;
pub mod rebuilt_laws;
pub mod table_laws;
pub mod update_laws;
