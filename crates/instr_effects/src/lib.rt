//! What an instruction does: which lanes it reads, writes and moves, by the numbers of lanes and as
//! values, said once for liveness, edits, verifiers, the checker and the interpreter.
//!
//! Both are exactly what `mir_meaning` says of the instruction. Begin with `effects` (by the numbers of
//! lanes, which `lanes` and `numbers` give) and with `items` (as values).
#![tactic(auto)]

pub mod acts;
pub mod counted;
mod definitions;
pub mod effects;
pub mod items;
pub mod lane_acts;
pub mod lanes;
pub mod laws;
pub mod masks;
pub mod numbers;
pub mod operand;
pub mod owner;
pub mod registers;
pub mod row;
pub mod run;
pub mod silent;
pub mod whole;

pub use acts::Act;
pub use effects::{EffectReader, Effects, PhiRead};
pub use lane_acts::{LaneAct, LaneRead, LaneWrite};
pub use lanes::LaneTable;
pub use mir_meaning::LaneDef;
pub use owner::Owner;
pub use row::LaneSpan;
pub use run::LaneSequence;
pub use whole::lanes_of;
