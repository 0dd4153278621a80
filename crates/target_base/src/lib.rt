//! Targets of the register allocator: storage units, registers, subregister indexes, register classes,
//! call masks and opcodes, and the questions that the allocator asks of them.
//!
//! Each look-up answers exactly what the target's lists say. The lists with their allocator (`List`,
//! `BoxedList`), the built-in target (`builtin::mini`) and what files share (`Shared`) stand here too.
//! Begin with `types`; look-ups are in `registers`, `classes` and `roles`.
#![tactic(auto)]

pub mod boxed;
pub mod builtin;
pub mod classes;
pub mod list;
pub mod registers;
pub mod roles;
pub mod shared;
pub mod types;

pub use boxed::{Boxed, BoxedList};
pub use builtin::mini;
pub use list::{Copied, List};
pub use shared::Shared;
pub use types::{
    Bytes, ClassDesc, ClassDescs, ClassId, Effect, Flags, IndexDesc, IndexDescs, IndexId,
    LaneNumbers, MaskDesc, MaskDescs, MaskId, Numbers, OpId, OpaqueKind, OpcodeDesc, OpcodeDescs,
    Reg, RegDesc, RegDescs, Regs, Role, Roles, Target, TextOptions, Unit, UnitDesc, UnitDescs,
    UnitList, Words,
};
