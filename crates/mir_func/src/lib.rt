//! Functions of machine instructions (LLVM's MachineFunction), their edits, and the look-ups in
//! instructions.
//!
//! Each edit, by id or by place, is exactly the named change of the function, and a refusal leaves it
//! as it was; ids of instructions stay single. Begin with `func`; edits by place are in `at` with their
//! laws in `place_laws`, and what opcodes and operands say in `opcodes` and `operands`.
#![tactic(auto)]

mod at;
pub mod func;
pub mod opcodes;
pub mod operands;
pub mod place_laws;
pub mod short;
pub mod spelling;

pub use func::{
    Block, Blocks, Classes, Edge, Edges, Frames, Func, Gap, Instr, Instrs, Loc, NoPhi, Op, Operand,
    Operands, Place, RegOp, Valid,
};
pub use short::ShortList;
