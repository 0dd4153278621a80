//! What is asked of the live lanes: the points of ranges, the instructions that touch them, stretches
//! for the matrix, and labels of points.

pub mod extent;
pub mod labels;
pub(crate) mod points;
pub(crate) mod size;
pub(crate) mod spread;
pub(crate) mod touch;
