//! What is live as it is computed for a whole function: what instructions do is entered, what is live
//! grows from the readings, and each live piece gets its end.

pub mod ends;
pub(crate) mod enter;
pub mod flow;
pub(crate) mod grow;
