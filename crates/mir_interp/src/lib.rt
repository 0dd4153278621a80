//! The interpreter: what a function of machine instructions does, in either form, through a number of
//! counted instructions.
//!
//! A run is just the run of the function's meaning in the world of the caller. Begin with
//! `machine::run`, then `perform` (one instruction) and `world` (what is outside).
#![tactic(auto)]

pub mod env;
pub mod external;
pub mod fetch;
pub mod machine;
pub mod memory;
pub mod names;
pub mod numbers;
pub mod perform;
pub mod steps;
pub mod store;
pub mod types;
pub mod world;

pub use env::Env;
pub use machine::run;
pub use types::{End, Event, Events, Lanes, Outcome};
pub use world::World;
