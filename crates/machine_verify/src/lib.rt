//! Both machine verifiers (LLVM's MachineVerifier): whether a function is valid as a source or as an
//! allocated function.
//!
//! The answer is exact: the first place in layout at which a rule fails, with the least rule there, or
//! that none does. Begin with `verify`; rules of instructions are in `instr_rules`, and what lives
//! across blocks in `lanes`.
#![tactic(auto)]

mod blocks;
mod classes;
mod instr_rules;
mod lanes;
mod liveins;
mod numbers;
mod operands;
mod parts;
mod search;
pub mod stop;
mod ties;
mod verify;
mod words;

pub use blocks::has_successor;
pub use liveins::{is_set, is_whole, names_virtual, unreserved_registers};
pub use mir_func::{Place, Valid};
pub use stop::{Invalid, VerifyStop};
pub use ties::same_lane;
pub use verify::{LiveSource, verify_allocated, verify_live, verify_source};
