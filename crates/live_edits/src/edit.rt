//! Edits of a function.

use mir_func::{Gap, Operands};
use target_base::OpId;

/// An edit of a function.
#[derive(Drop)]
pub enum Edit {
    /// A new instruction, without flags and tail, is put into a gap.
    Put(Gap, OpId, Operands),
    /// The instruction of an id gets another opcode and other operands, and keeps flags and tail.
    Replace(u32, OpId, Operands),
    /// The instruction of an id goes.
    Erase(u32),
}
