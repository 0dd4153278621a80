//! What each command answers at a document of a file: the text that is written for it, or why the run
//! ends there.

pub mod answer;
pub mod documents;
pub mod generated;
mod intervals;
pub mod pairs;
pub mod piece;
pub mod refusal;
mod run;
pub mod spot;
pub mod status;
mod told;
mod trace;
pub mod verify;
mod words;

pub use crate::commands::answer::{Answer, Job, Task, answer_at, end_status};
pub use crate::commands::documents::end_text;
pub use crate::commands::generated::gen_answer;
pub use crate::commands::refusal::Refusal;
pub use crate::commands::spot::DocStart;
pub use crate::commands::status::{LimitName, Status};
