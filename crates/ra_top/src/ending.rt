//! How a run over a file ends.

use crate::commands::Status;
use target_base::Bytes;

/// How a run ends: its status, and the detail of its line.
#[derive(Drop)]
pub struct ExitReport {
    /// The status.
    pub status: Status,
    /// The number of the line at fault, or what is said of the function that is refused.
    pub detail: Bytes,
}

/// Whether a run goes on.
#[derive(Drop)]
pub enum StreamStep {
    /// It goes on.
    More,
    /// It ends.
    End(ExitReport),
}
