//! A function allocated under guard: its limits, its validity and its places are tested, its registers
//! chosen, and the checker of allocations is asked before it is handed out.

pub mod function;
mod guard;
pub mod limits;
pub mod source;
pub mod spelled;
pub mod stop;
pub mod valid;

pub use crate::guarded::function::allocate_function;
pub use crate::guarded::source::{
    NamedSource, ServedSource, allocated_name, live_source, served_source, within_limits,
};
pub use crate::guarded::spelled::Allocation;
pub use crate::guarded::stop::{FunctionStop, LimitName};
pub use crate::guarded::valid::{verify_allocated, verify_live};
pub use crate::passes::{Allocator, Watcher};
