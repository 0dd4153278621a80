//! What a run gives.

use target_base::{Bytes, List};

/// Lanes in order, the lowest first; None is the undefined value.
pub type Lanes = List<Option<u128>>;

/// What a run shows to the outside.
#[derive(Drop)]
pub enum Event {
    /// A call: the symbol's spelling, and the lanes of all register uses.
    Call(Bytes, Lanes),
    /// A store: the address, and the lanes that are stored.
    Store(u128, Lanes),
    /// A return: the lanes of all register uses.
    Return(Lanes),
    /// An opaque instruction: its opcode with the spellings of the operands that are no registers and
    /// no blocks, and the lanes of all register uses.
    Opaque(Bytes, Lanes),
}

/// Events in order.
pub type Events = List<Event>;

/// How a run ends.
#[derive(Clone, Copy, Debug, PartialEq, Eq)]
pub enum End {
    /// By a return.
    Returned,
    /// By a division by 0.
    Trapped,
    /// At a branch that reads an undefined lane, at an address with one, or at the end of a block that
    /// control doesn't reach.
    Undefined,
    /// All counted instructions that were asked for are done.
    Steps,
}

/// The events of a run, and its end.
#[derive(Drop)]
pub struct Outcome {
    /// What it showed, in order.
    pub events: Events,
    /// How it ended.
    pub end: End,
}
