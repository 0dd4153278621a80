//! Reading target files: the text that describes a machine to the register allocator.
//!
//! A target that is read keeps all rules of targets and is just the one that the text spells; a text
//! that isn't one is refused with its line and the kind of its fault, and each target is spelled by
//! some text (`law`). Begin with `read`, then `forms` (the lines) and `complete` (what is found behind
//! the last).
#![tactic(auto)]

mod add;
mod complete;
mod draft;
pub mod fault;
mod forms;
pub mod law;
mod names;
mod opaque;
mod raw;
pub mod read;
mod resolve;
mod roles;
mod rules;
mod tables;
mod text;
mod widths;

pub use fault::{TargetFault, TargetKind, TargetStop};
pub use read::read_target;
pub use target_base::{
    Bytes, ClassDesc, ClassDescs, ClassId, Copied, Effect, Flags, IndexDesc, IndexDescs, IndexId,
    LaneNumbers, List, MaskDesc, MaskDescs, MaskId, Numbers, OpId, OpaqueKind, OpcodeDesc,
    OpcodeDescs, Reg, RegDesc, RegDescs, Regs, Role, Roles, Target, TextOptions, Unit, UnitDesc,
    UnitDescs, UnitList, Words, mini,
};
