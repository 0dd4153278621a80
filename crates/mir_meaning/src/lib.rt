//! What functions of machine instructions mean: how operands meet an opcode's roles, what each
//! instruction reads and writes, live points, the validity rules V1 to V16, places, and agreement of a
//! source with an allocated function.
//!
//! The meanings are the definitions of `specs/`: begin with Codes (a function as code), Rules (the
//! rules) and Points (live points). The few types here are shared with code.
#![tactic(auto)]

/// The two forms in which a function may stand.
#[derive(Clone, Copy, Debug, PartialEq, Eq)]
pub enum Form {
    /// What the allocator takes: virtual registers, phis, no spill slots.
    Source,
    /// What the allocator answers: physical registers and spill slots alone.
    Allocated,
}

pub mod ends;
mod writing;

pub use writing::LaneDef;
