//! Worked examples of the definitions, proved: what code means, what functions of machine instructions
//! mean, and what coalescing, splits, offers and steps of the allocator are.
//!
//! Each is the contract of a function. Begin with `code`.
#![tactic(auto)]

pub mod allocator;
pub mod code;
pub mod machine_code;
